//! Characters in UTF-8, byte by byte.

ghost use Rattle.std.specs.Prelude.{◌≡◌, if◌then◌else◌};
ghost use Rattle.byte_grammar.specs.Utf8.{between, follow, is_whole as whole};
ghost use Rattle.byte_grammar.specs.Meaning.{GoesOn, TellsUtf8};

/// What the bytes of a text in UTF-8 so far ask of the next one.
#[derive(Clone, Copy)]
pub enum Character {
    /// Each character is whole.
    Whole,
    /// One byte of a character is still to come.
    One,
    /// Two bytes are.
    Two,
    /// Three bytes are.
    Three,
    /// Two bytes are, after `E0`: the first of them from 160.
    BehindE0,
    /// Two bytes are, after `ED`: the first of them up to 159.
    BehindEd,
    /// Three bytes are, after `F0`: the first of them from 144.
    BehindF0,
    /// Three bytes are, after `F4`: the first of them up to 143.
    BehindF4,
}

fn begun(byte: u8) -> Option<Character>
    ensures { result ≡ follow Character.Whole byte }
{
    if byte < 128 {
        Some(Character::Whole)
    } else if byte < 194 {
        None
    } else if byte < 224 {
        Some(Character::One)
    } else if byte == 224 {
        Some(Character::BehindE0)
    } else if byte == 237 {
        Some(Character::BehindEd)
    } else if byte < 240 {
        Some(Character::Two)
    } else if byte == 240 {
        Some(Character::BehindF0)
    } else if byte < 244 {
        Some(Character::Three)
    } else if byte == 244 {
        Some(Character::BehindF4)
    } else {
        None
    }
}

fn is_between(low: u8, high: u8, byte: u8) -> bool
    ensures { result ≡ between low high byte }
{
    low <= byte && byte <= high
}

fn within(low: u8, high: u8, byte: u8, behind: Character) -> Option<Character>
    ensures { result ≡ (if between low high byte then Some behind else None) }
{
    if is_between(low, high, byte) {
        Some(behind)
    } else {
        None
    }
}

fn followed(character: Character, byte: u8) -> Option<Character>
    ensures { result ≡ follow character byte }
{
    match character {
        Character::Whole => begun(byte),
        Character::One => within(128, 191, byte, Character::Whole),
        Character::Two => within(128, 191, byte, Character::One),
        Character::Three => within(128, 191, byte, Character::Two),
        Character::BehindE0 => within(160, 191, byte, Character::One),
        Character::BehindEd => within(128, 159, byte, Character::One),
        Character::BehindF0 => within(144, 191, byte, Character::Two),
        Character::BehindF4 => within(128, 143, byte, Character::Two),
    }
}

/// What a text asks after one byte more, or none exactly where no text in UTF-8 (RFC 3629, "UTF-8 definition") goes on
/// with it.
#[tactic(auto, using(crate::proofs::Utf8Meaning::goes_on))]
pub fn next(character: Character, byte: u8) -> Option<Character>
    ensures steps { result ≡ follow character byte }
    ensures goes_on { GoesOn character byte result }
{
    followed(character, byte)
}

fn whole_now(character: Character) -> bool
    ensures { result ≡ whole character }
{
    match character {
        Character::Whole => true,
        _ => false,
    }
}

/// Whether the bytes that ask for this are a text in UTF-8: no byte of a character is still to come. Where they aren't,
/// some bytes make them one.
#[tactic(auto, using(crate::proofs::Utf8Meaning::tells_utf8))]
pub fn is_whole(character: Character) -> bool
    ensures answer { result ≡ whole character }
    ensures text { TellsUtf8 character result }
{
    whole_now(character)
}
