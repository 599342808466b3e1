//! Writing of JSON texts.

ghost use Rattle.std.specs.Prelude.{◌≡◌, ◌++◌, ◌∷◌, ◌<◌, List, ℕ, OnOk, OnErr};
ghost use Rattle.std.specs.Char.{digit_char};
ghost use Rattle.json_text.specs.Grammar.{IsJson};
ghost use Rattle.json_text.specs.Parts.{IsGrown};
ghost use Rattle.json_text.specs.Trees.{json_of};
ghost use Rattle.json_text.specs.Written.{comma_before, escaped_byte, in_quotes, json_written, items_written};
ghost use Rattle.json_text.specs.Written.{member_written, members_written};

use crate::tree::{Member, Members, Tree, Trees};
use zbx_types::{Bytes, OutOfMemory};

/// The character of a hexadecimal digit, in lower case.
fn hex_digit(value: u8) -> u8
    requires { value < 16 }
    ensures { result ≡ digit_char value }
{
    if value < 10 {
        b'0' + value
    } else {
        b'a' + (value - 10)
    }
}

/// A byte in quotes.
fn put_byte(out: &mut Bytes, byte: u8) -> Result<(), OutOfMemory>
    ensures ok { OnOk result (out.new ≡ out.old ++ escaped_byte byte) }
    ensures err { OnErr result (out.new ≡ out.old) }
{
    match byte {
        b'"' => out.extend(b"\\\""),
        b'\\' => out.extend(b"\\\\"),
        0..32 => {
            let digits = [hex_digit(byte / 16), hex_digit(byte % 16)];
            out.extend_both(b"\\u00", &digits)
        }
        _ => out.extend(&[byte]),
    }
}

/// A text in quotes. Where memory is refused some of it may be written.
fn put_quoted(out: &mut Bytes, text: &[u8]) -> Result<(), OutOfMemory>
    ensures ok { OnOk result (out.new ≡ out.old ++ in_quotes text.now) }
    ensures err { OnErr result (IsGrown out.old out.new) }
{
    out.extend(b"\"")?;
    for byte in text {
        put_byte(out, *byte)?;
    }
    out.extend(b"\"")
}

/// Adds the comma that stands before each item or member but the first.
pub fn put_comma(out: &mut Bytes, first: bool) -> Result<(), OutOfMemory>
    ensures ok { OnOk result (out.new ≡ out.old ++ comma_before first) }
    ensures err { OnErr result (out.new ≡ out.old) }
{
    if first { Ok(()) } else { out.extend(b",") }
}

/// A value. Where memory is refused some of it may be written.
#[cycle(write)]
fn put_tree(out: &mut Bytes, tree: &Tree) -> Result<(), OutOfMemory>
    ensures ok { OnOk result (out.new ≡ out.old ++ json_written (json_of tree.now)) }
    ensures err { OnErr result (IsGrown out.old out.new) }
{
    match tree {
        Tree::Null => out.extend(b"null"),
        Tree::Bool(true) => out.extend(b"true"),
        Tree::Bool(false) => out.extend(b"false"),
        Tree::Number(text) => out.extend(text.as_bytes()),
        Tree::Words(text) => put_quoted(out, text.as_bytes()),
        Tree::List(items) => put_items(out, items),
        Tree::Object(members) => put_members(out, members),
    }
}

/// An array.
#[cycle(write)]
fn put_items(out: &mut Bytes, items: &Trees) -> Result<(), OutOfMemory>
    ensures ok { OnOk result (out.new ≡ out.old ++ 91 ∷ items_written items.now) }
    ensures err { OnErr result (IsGrown out.old out.new) }
{
    out.extend(b"[")?;
    let mut first = true;
    for tree in items.as_slice() {
        put_comma(out, first)?;
        put_tree(out, tree)?;
        first = false;
    }
    out.extend(b"]")
}

/// A member of an object.
#[cycle(write)]
fn put_member(out: &mut Bytes, member: &Member) -> Result<(), OutOfMemory>
    ensures ok { OnOk result (out.new ≡ out.old ++ member_written member.now.name (json_of member.now.value)) }
    ensures err { OnErr result (IsGrown out.old out.new) }
{
    put_quoted(out, member.name.as_bytes())?;
    out.extend(b":")?;
    put_tree(out, &member.value)
}

/// An object.
#[cycle(write)]
fn put_members(out: &mut Bytes, members: &Members) -> Result<(), OutOfMemory>
    ensures ok { OnOk result (out.new ≡ out.old ++ 123 ∷ members_written members.now) }
    ensures err { OnErr result (IsGrown out.old out.new) }
{
    out.extend(b"{")?;
    let mut first = true;
    for member in members.as_slice() {
        put_comma(out, first)?;
        put_member(out, member)?;
        first = false;
    }
    out.extend(b"}")
}

/// Adds the text of a value at the end: no blanks, members in order, numbers with their text; in texts a quote and a
/// backslash get a backslash, and bytes below 32 are `\u00` with two lower-case hexadecimal digits (this project's own
/// form of RFC 8259's texts).
///
/// What is written of a tree that [`read`](crate::read) gave is a JSON text for the same value. At [`OutOfMemory`]
/// `out` is as before.
pub fn write(tree: &Tree, out: &mut Bytes) -> Result<(), OutOfMemory>
    ensures ok { OnOk result (out.new ≡ out.old ++ json_written (json_of tree.now)) }
    ensures err { OnErr result (out.new ≡ out.old) }
    ensures reads_back { (text : List ℕ) → IsJson text (json_of tree.now)
        → IsJson (json_written (json_of tree.now)) (json_of tree.now) }
{
    let length = out.len();
    match put_tree(out, tree) {
        Ok(()) => Ok(()),
        Err(e) => {
            out.truncate(length);
            Err(e)
        }
    }
}
