//! Texts whose replacing stops at a limit.

ghost use Rattle.std.specs.Prelude.{◌≡◌, ◌++◌, ◌+◌, ◌<◌, ◌≤◌, ℕ, List, length, IfOk};
ghost use Rattle.macro_text.specs.Expanded.{expanded};
ghost use Rattle.macro_text.specs.Limited.{IsExpansion, whole_front};

use crate::index::Macros;
use crate::parts::front_of;
use std::alloc::Global;
use std::convert::AsStr;
use zbx_types::{Bytes, OutOfMemory, Text};

/// A text with its references replaced, up to a limit.
#[derive(Debug, Drop)]
pub enum Expansion {
    /// The whole text, which is within the limit.
    Whole(Text),
    /// The text is longer. Its first bytes, as many as the limit allows, which may end within a character.
    Longer(Bytes),
}

/// What stands for the front of a text, and the rest of the text behind that front.
fn replace_front<'a>(text: &'a str, macros: &'a Macros<'_, '_>) -> (&'a str, &'a str)
    requires { 0 < length text.now }
    ensures front { expanded macros.now text.now ≡ result.0.now ++ expanded macros.now result.1.now }
    ensures shorter { length result.1.now < length text.now }
{
    let front = front_of(text);
    if front.is_reference {
        (macros.value_of(front.text), front.rest)
    } else {
        (front.text, front.rest)
    }
}

/// The front of a text that has these two parts at its front, and is longer with them than the limit.
#[tactic(auto, using(crate::proofs::Cutting::cut_within, crate::proofs::Cutting::longer))]
fn cut(alloc: Global, made: &Text, more: &str, most: usize) -> Result<Expansion, OutOfMemory>
    requires within { length made.now ≤ most }
    requires longer { most < length made.now + length more.now }
    ensures { IfOk result (λ e. (rest : List ℕ) → IsExpansion e (made.now ++ more.now ++ rest) most) }
{
    let room = most - made.len();
    let mut front = Bytes::of(alloc, made.as_bytes())?;
    front.extend(&more.as_bytes()[..room])?;
    Ok(Expansion::Longer(front))
}

/// As [`expand`], of at most so many bytes. Of a longer text only the front is made, and no more than it is held: what
/// stands behind the limit costs neither memory nor time.
///
/// [`OutOfMemory`] where there is no room for the text that is made. The time grows with the text and with what is made.
///
/// [`expand`]: crate::expand
pub fn expand_within<'a>(
    alloc: Global,
    text: &'a Text,
    macros: &'a Macros<'_, '_>,
    most: usize,
) -> Result<Expansion, OutOfMemory>
    ensures value { IfOk result (λ e. IsExpansion e (expanded macros.now text.now) most) }
{
    let mut made = Text::new(alloc);
    let mut rest = text.as_str();
    while !rest.is_empty() {
        let (front, behind) = replace_front(rest, macros);
        if most - made.len() < front.len() {
            return cut(alloc, &made, front, most);
        }
        made.push_str(front)?;
        rest = behind;
    }
    Ok(Expansion::Whole(made))
}

/// The longest front of whole characters for which there is room.
fn whole_characters(text: &str, room: usize) -> &str
    requires { room < length text.now }
    ensures { (made rest : List ℕ) (most : ℕ) → most ≡ length made + room → made ++ result.now ≡ whole_front most (made ++ text.now ++ rest) }
{
    &text[..text.floor_char_boundary(room)]
}

/// As [`expand`], of at most so many bytes: of a longer text the longest front of whole characters within the limit. What
/// stands behind it costs neither memory nor time.
///
/// [`OutOfMemory`] where there is no room for the text that is made.
///
/// [`expand`]: crate::expand
pub fn expand_front<'a>(
    alloc: Global,
    text: &'a Text,
    macros: &'a Macros<'_, '_>,
    most: usize,
) -> Result<Text, OutOfMemory>
    ensures value { IfOk result (λ made. made ≡ whole_front most (expanded macros.now text.now)) }
{
    let mut made = Text::new(alloc);
    let mut rest = text.as_str();
    while !rest.is_empty() {
        let (front, behind) = replace_front(rest, macros);
        let room = most - made.len();
        if room < front.len() {
            made.push_str(whole_characters(front, room))?;
            return Ok(made);
        }
        made.push_str(front)?;
        rest = behind;
    }
    Ok(made)
}
