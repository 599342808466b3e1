//! What is kept of a value.

ghost use Rattle.std.specs.Prelude.{◌≡◌, option_map, true, false};
ghost use Rattle.serde_json.specs.Read.{number_of, number_from, float_of};
ghost use Rattle.sender_json.specs.Seen.{data_of, plain_number};

use fast_float::Numeral;

/// What is kept of a value that is passed over. A text is borrowed from the reader.
#[derive(Clone, Copy, Drop)]
pub(crate) enum Seen<'a> {
    /// A text.
    Text(&'a str),
    /// A whole number from 0 to 2^64 - 1.
    Unsigned(u64),
    /// A whole number from -2^63 to -1.
    Negative(i64),
    /// Anything else.
    Other,
}

/// A number that is held as a float, unless it is too large for one.
fn float<'a>(negative: bool, numeral: &Numeral<'_>) -> Option<Seen<'a>>
    ensures { option_map data_of result ≡ option_map plain_number (float_of negative numeral.now) }
{
    let nearest: f64 = numeral.to_float(negative);
    if nearest.is_finite() {
        Some(Seen::Other)
    } else {
        None
    }
}

fn unsigned<'a>(numeral: &Numeral<'_>) -> Option<Seen<'a>>
    ensures { option_map data_of result ≡ option_map plain_number (number_from false numeral.now) }
{
    match numeral.to_u64() {
        Some(n) => Some(Seen::Unsigned(n)),
        None => float(false, numeral),
    }
}

/// The number of a numeral behind a minus; `-0` is a float.
fn negative<'a>(numeral: &Numeral<'_>) -> Option<Seen<'a>>
    ensures { option_map data_of result ≡ option_map plain_number (number_from true numeral.now) }
{
    match numeral.to_i64(true) {
        Some(n) if n < 0 => Some(Seen::Negative(n)),
        _ => float(true, numeral),
    }
}

/// What is kept of a number, or that its text writes none that `serde_json` reads.
#[tactic(auto, unfolding(serde_json::specs::Read::number_of))]
pub(crate) fn number<'a>(text: &str) -> Option<Seen<'a>>
    ensures { option_map data_of result ≡ option_map plain_number (number_of text.now) }
{
    let bytes = text.as_bytes();
    if !bytes.is_empty() && bytes[0] == b'-' {
        negative(&Numeral::scan(&bytes[1..]))
    } else {
        unsigned(&Numeral::scan(bytes))
    }
}
