//! Passing over values.

ghost use Rattle.std.specs.Prelude.{◌≡◌, ◌<◌, ◌≤◌, ◌∷◌, length, Some, None, IfOk, OnOk, OnErr};
ghost use Rattle.json.specs.Reads.{token_of};
ghost use Rattle.serde_json.specs.Data.{Data, Items, Members};
ghost use Rattle.sender_json.specs.Seen.{data_of, plain};
ghost use Rattle.sender_json.specs.Tokens.{value_first, items_first, members_first};

use crate::seen::{Seen, number};
use json::{Invalid, Reader, Token};

/// Passes over a value that nests no deeper than `depth`.
#[cycle(pass)]
pub(crate) fn pass<'a>(reader: &mut Reader<'a>, depth: usize) -> Result<Seen<'a>, Invalid>
    ensures ok { IfOk result (λ seen. (d : Data) × (value_first depth reader.old ≡ Some (d, reader.new))
        × (data_of seen ≡ plain d)) }
    ensures shorter { OnOk result (length reader.new < length reader.old) }
    ensures err { OnErr result (value_first depth reader.old ≡ None) }
{
    let token = reader.next().ok_or(Invalid)?;
    pass_rest(token, reader, depth)
}

/// Passes over the rest of the value that begins with this token.
#[cycle(pass)]
pub(crate) fn pass_rest<'a>(
    token: Token<'a>,
    reader: &mut Reader<'a>,
    depth: usize,
) -> Result<Seen<'a>, Invalid>
    ensures ok { IfOk result (λ seen. (d : Data)
        × (value_first depth (token_of token.entry ∷ reader.old) ≡ Some (d, reader.new)) × (data_of seen ≡ plain d)) }
    ensures shorter { OnOk result (length reader.new ≤ length reader.old) }
    ensures err { OnErr result (value_first depth (token_of token.entry ∷ reader.old) ≡ None) }
{
    match token {
        Token::String(text) => Ok(Seen::Text(text)),
        Token::Number(text) => match number(text) {
            Some(seen) => Ok(seen),
            None => Err(Invalid),
        },
        Token::Bool(_) => Ok(Seen::Other),
        Token::Null => Ok(Seen::Other),
        Token::EndObject | Token::EndArray | Token::Key(_) | Token::Bad => Err(Invalid),
        Token::BeginArray => {
            if depth == 0 {
                return Err(Invalid);
            }
            pass_items(reader, depth - 1)?;
            Ok(Seen::Other)
        }
        Token::BeginObject => {
            if depth == 0 {
                return Err(Invalid);
            }
            pass_members(reader, depth - 1)?;
            Ok(Seen::Other)
        }
    }
}

#[cycle(pass)]
fn pass_items(reader: &mut Reader<'_>, depth: usize) -> Result<(), Invalid>
    ensures ok { OnOk result ((ds : Items) × (items_first depth reader.old ≡ Some (ds, reader.new))) }
    ensures shorter { OnOk result (length reader.new ≤ length reader.old) }
    ensures err { OnErr result (items_first depth reader.old ≡ None) }
{
    'items: while !reader.take_end_array() {
        pass(reader, depth)?;
    }
    Ok(())
}

#[cycle(pass)]
fn pass_members(reader: &mut Reader<'_>, depth: usize) -> Result<(), Invalid>
    ensures ok { OnOk result ((ms : Members) × (members_first depth reader.old ≡ Some (ms, reader.new))) }
    ensures shorter { OnOk result (length reader.new ≤ length reader.old) }
    ensures err { OnErr result (members_first depth reader.old ≡ None) }
{
    'members: while let Some(_) = reader.next_key()? {
        pass(reader, depth)?;
    }
    Ok(())
}
