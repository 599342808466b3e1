//! Bytes that lead from a place in a token to a place in the same token, which are taken where it stands.

ghost use Rattle.std.specs.Prelude.{◌≡◌, ◌++◌, ◌∷◌, [], ℕ, List, Bool, false, Option, IfOk, OnOk, Some, None};
ghost use Rattle.expr_parser.specs.Machine as machine;
ghost use Rattle.expr_parser.specs.Parts as parts;
ghost use Rattle.expr_parser.specs.Staying.{reach};
ghost use Rattle.expr_parser.specs.View as view;
ghost use Rattle.expr_parser.specs.View.{state};
ghost use Rattle.expr_parser.specs.declared.parts.Part.{Part};
ghost use Rattle.expr_parser.specs.declared.pending.Pending.{Pending};
ghost use Rattle.expr_parser.specs.declared.slots.Slot.{Slot};
ghost use Rattle.zbx_types.specs.Tree.{Tree};
ghost use Rattle.zbx_types.specs.declared.calls.Call.{Call};
ghost use Rattle.zbx_types.specs.declared.calls.Fun.{Fun};
ghost use Rattle.zbx_types.specs.declared.expr.Op.{Op};

use crate::call_bytes::delimiter;
use crate::figures::{Figures, figure, is_figure};
use crate::names::begun;
use crate::parts::Part;
use crate::pending::Rest;
use crate::range_bytes::{back, colon, first_range, hash_byte, latest_byte, second, shift_byte};
use crate::slots::Slot;
use crate::states::{MOST_CALLS, Mode, State, blank};
use crate::whole_numbers::GREATEST;
use byte_grammar::Character;
use item_key::{Place, may_end, next};
use std::alloc::Global;
use std::mem::replace;
use zbx_types::{Bytes, LONGEST_KEY, LONGEST_NAME, OutOfMemory, is_host_name_byte};

/// Whether an expression goes on with a byte, or none where the byte wasn't taken.
type Stay = Result<Option<bool>, OutOfMemory>;

/// Adds a byte at the end. After an error the bytes are any.
#[inline(always)]
fn put(alloc: Global, text: &mut Bytes, byte: u8) -> Result<(), OutOfMemory>
    ensures { OnOk result (text.new ≡ text.old ++ byte ∷ []) }
{
    let mut bytes = replace(text, Bytes::new(alloc)).into_vec();
    bytes.push(byte)?;
    *text = Bytes::from(bytes);
    Ok(())
}

/// Takes a byte of a host.
#[inline(always)]
fn host_on(alloc: Global, text: &mut Bytes, byte: u8) -> Stay
    ensures goes { IfOk result (λ is. (on : Bool) → is ≡ Some on → (f : Fun) (o : ℕ) (k : List Pending) (cs : List Call) → reach on (machine.state (machine.Host f text.new) byte o k cs) ≡ machine.host f text.old o k cs byte) }
    ensures stays { IfOk result (λ is. is ≡ None → text.new ≡ text.old) }
{
    if !is_host_name_byte(byte) {
        return Ok(None);
    }
    if text.len() >= LONGEST_NAME {
        return Ok(Some(false));
    }
    put(alloc, text, byte)?;
    Ok(Some(true))
}

/// Takes a byte of a key.
#[inline(always)]
fn key_on(
    alloc: Global,
    key: &mut Bytes,
    place: &mut Place,
    character: &mut Character,
    byte: u8,
) -> Stay
    ensures goes { IfOk result (λ is. (on : Bool) → is ≡ Some on → (f : Fun) (h : List ℕ) (o : ℕ) (k : List Pending) (cs : List Call) → reach on (machine.state (machine.Key f h key.new place.new character.new) byte o k cs) ≡ machine.key_byte false f h key.old place.old character.old o k cs byte) }
    ensures stays { IfOk result (λ is. is ≡ None → (key.new ≡ key.old) × (place.new ≡ place.old) × (character.new ≡ character.old)) }
{
    if delimiter(byte) && may_end(*place) {
        return Ok(None);
    }
    if key.len() >= LONGEST_KEY {
        return Ok(Some(false));
    }
    let Some(behind) = next(*place, byte) else {
        return Ok(Some(false));
    };
    let Some(open) = byte_grammar::next(*character, byte) else {
        return Ok(Some(false));
    };
    put(alloc, key, byte)?;
    *place = behind;
    *character = open;
    Ok(Some(true))
}

/// The place behind one byte more of a range, where the argument is one.
#[inline(always)]
fn range_on(slot: Slot, place: &Part, byte: u8) -> Option<Option<Part>>
    ensures { (made : Option Part) → result ≡ Some made → made ≡ parts.part slot place.now byte }
{
    match place {
        Part::Before => match slot {
            Slot::Newest | Slot::Span | Slot::MaybeSpan | Slot::Silence => {
                Some(first_range(slot, byte))
            }
            _ => None,
        },
        Part::Hash => Some(hash_byte(byte)),
        Part::Latest(n) => Some(latest_byte(slot, *n, byte)),
        Part::Seconds(n) => Some(second(slot, *n, byte)),
        Part::Spanned(range) => Some(colon(slot, *range, byte)),
        Part::Back(ahead, range) => Some(back(*ahead, *range, byte)),
        Part::Shift(range, n) => Some(shift_byte(*range, *n, byte)),
        _ => None,
    }
}

/// Takes a byte of an argument that is a range.
#[inline(always)]
fn argument_on(fresh: &mut bool, slot: Slot, place: &mut Part, byte: u8) -> Option<bool>
    ensures goes { (on : Bool) → result ≡ Some on → (c : Call) (ss : List Slot) (o : ℕ) (k : List Pending) (cs : List Call) → reach on (machine.state (machine.Argument fresh.new c slot ss place.new) byte o k cs) ≡ machine.argument fresh.old c slot ss place.old o k cs byte }
    ensures stays { result ≡ None → (fresh.new ≡ fresh.old) × (place.new ≡ place.old) }
{
    if delimiter(byte) || blank(byte) {
        return None;
    }
    match range_on(slot, place, byte) {
        None => None,
        Some(None) => Some(false),
        Some(Some(behind)) => {
            *fresh = false;
            drop(replace(place, behind));
            Some(true)
        }
    }
}

/// Takes a letter of a word, which may be the name of a function where there is room for a call.
#[inline(always)]
fn word_on(nots: bool, room: bool, text: &mut Bytes, byte: u8) -> Stay
    ensures goes { IfOk result (λ is. (on : Bool) → is ≡ Some on → (o : ℕ) (k : List Pending) (cs : List Call) → room ≡ machine.has_room cs → reach on (machine.state (machine.Word nots text.new) byte o k cs) ≡ machine.word nots text.old o k cs byte) }
    ensures stays { IfOk result (λ is. is ≡ None → text.new ≡ text.old) }
{
    if byte == b'(' || blank(byte) {
        return Ok(None);
    }
    text.extend(&[byte])?;
    Ok(Some(begun(nots, room, text.as_slice())))
}

/// Takes a figure of a number.
#[inline(always)]
fn number_on(alloc: Global, figures: &mut Figures, byte: u8) -> Stay
    ensures goes { IfOk result (λ is. (on : Bool) → is ≡ Some on → (l o : ℕ) (k : List Pending) (cs : List Call) → reach on (machine.state (machine.Number figures.new) byte o k cs) ≡ machine.number figures.old l o k cs byte) }
    ensures stays { IfOk result (λ is. is ≡ None → figures.new ≡ figures.old) }
{
    if !is_figure(byte) {
        return Ok(None);
    }
    let before = replace(figures, Figures::Pointed(Bytes::new(alloc)));
    match figure(GREATEST, before, byte)? {
        None => Ok(Some(false)),
        Some(behind) => {
            drop(replace(figures, behind));
            Ok(Some(true))
        }
    }
}

/// Takes a letter of `and` or `or`.
#[inline(always)]
fn joint_on(rest: &mut Rest, byte: u8) -> Option<bool>
    ensures goes { (on : Bool) → result ≡ Some on → (op : Op) (e : Tree) (o : ℕ) (k : List Pending) (cs : List Call) → reach on (machine.state (machine.Joint op rest.new e) byte o k cs) ≡ machine.joint_byte op rest.old e o k cs byte }
    ensures stays { result ≡ None → rest.new ≡ rest.old }
{
    let (want, behind) = match *rest {
        Rest::Nd => (b'n', Rest::D),
        Rest::D => (b'd', Rest::Nothing),
        Rest::R => (b'r', Rest::Nothing),
        Rest::Nothing => return None,
    };
    if byte == want {
        *rest = behind;
        Some(true)
    } else {
        Some(false)
    }
}

/// Takes a byte that leads from a place in a token to a place in the same token, in most tokens.
#[inline(always)]
fn mode_on(alloc: Global, mode: &mut Mode, room: bool, byte: u8) -> Stay
    ensures goes { IfOk result (λ is. (on : Bool) → is ≡ Some on → (l o : ℕ) (k : List Pending) (cs : List Call) → room ≡ machine.has_room cs → reach on (machine.state (view.mode mode.new) byte o k cs) ≡ machine.move false (view.mode mode.old) l o k cs byte) }
    ensures stays { IfOk result (λ is. is ≡ None → mode.new ≡ mode.old) }
{
    match mode {
        Mode::Host(_, text) => host_on(alloc, text, byte),
        Mode::Key(_, _, key, place, character) => key_on(alloc, key, place, character, byte),
        Mode::Argument(fresh, _, slot, _, place) => Ok(argument_on(fresh, *slot, place, byte)),
        Mode::Word(nots, text) => word_on(*nots, room, text, byte),
        Mode::Number(figures) => number_on(alloc, figures, byte),
        Mode::Joint(_, rest, _) => Ok(joint_on(rest, byte)),
        _ => Ok(None),
    }
}

/// Takes a byte that leads from a place in a token to a place in the same token, and answers whether an expression goes on
/// with it. None where the byte leads elsewhere: then nothing has changed.
#[inline(always)]
pub(crate) fn stay(alloc: Global, s: &mut State, byte: u8) -> Stay
    ensures goes { IfOk result (λ is. (on : Bool) → is ≡ Some on → reach on (state s.new) ≡ machine.step false (state s.old) byte) }
    ensures stays { IfOk result (λ is. is ≡ None → s.new ≡ s.old) }
{
    let room = s.base.calls.len() < MOST_CALLS;
    let is = mode_on(alloc, &mut s.mode, room, byte)?;
    if is.is_some() {
        s.last = byte;
    }
    Ok(is)
}
