//! The bytes of calls: hosts, keys and arguments.

ghost use Rattle.std.specs.Prelude.{◌≡◌, IfOk, reverse, Some, None, false, if◌then◌else◌};
ghost use Rattle.std.specs.Str.{is_utf8};
ghost use Rattle.expr_parser.specs.Calls as calls;
ghost use Rattle.expr_parser.specs.Parts as parts;
ghost use Rattle.expr_parser.specs.Machine as machine;
ghost use Rattle.expr_parser.specs.Staying.{reach};
ghost use Rattle.expr_parser.specs.View.{state, slot_list};
ghost use Rattle.expr_parser.specs.declared.parts.Part.{Part};
ghost use Rattle.expr_parser.specs.declared.parts.Value.TheVariants.{Said};

use crate::figures::longer;
use crate::parts::{Part, Value, part_on, part_value};
use crate::slots::{Slot, Slots, all_absent, default_range, slots_of};
use crate::states::{MOST_CALLS, Mode, Moved, State, blank, to};
use byte_grammar::Character;
use item_key::{Place, may_end, next};
use std::alloc::Global;
use zbx_types::{
    Bytes, Call, Expr, Fun, LONGEST_KEY, LONGEST_NAME, OutOfMemory, Range, Text, is_host_name_byte,
};

/// The bytes of most keys, for which there is room from the first on.
const KEY_ROOM: usize = 32;

#[inline(always)]
pub(crate) fn host(alloc: Global, fun: Fun, text: Bytes, s: &mut State, byte: u8) -> Moved
    ensures { IfOk result (λ on. reach on (state s.new) ≡ machine.host fun text s.old.base.open_ones (reverse s.old.base.stack.items) s.old.base.calls byte) }
{
    if is_host_name_byte(byte) {
        if text.len() < LONGEST_NAME {
            let text = longer(text, byte)?;
            Ok(to(s, Mode::Host(fun, text), byte))
        } else {
            Ok(false)
        }
    } else if byte == b'/' && text.len() > 0 {
        let mut key = Bytes::new(alloc);
        key.reserve(KEY_ROOM)?;
        Ok(to(
            s,
            Mode::Key(fun, text, key, Place::Start, Character::Whole),
            byte,
        ))
    } else {
        Ok(false)
    }
}

#[inline(always)]
pub(crate) fn ended(call: Call, s: &mut State) -> Moved
    ensures { IfOk result (λ on. reach on (state s.new) ≡ machine.ended call s.old.base.open_ones (reverse s.old.base.stack.items) s.old.base.calls) }
{
    let place = s.base.calls.len();
    if place < MOST_CALLS {
        s.base.calls.push(call)?;
        Ok(to(s, Mode::Done(Expr::Call(place as u32)), b')'))
    } else {
        drop(call);
        Ok(false)
    }
}

#[inline(always)]
pub(crate) fn next_slot(call: Call, slots: Slots, s: &mut State) -> bool
    ensures { reach result (state s.new) ≡ machine.next_slot call (slot_list slots) s.old.base.open_ones (reverse s.old.base.stack.items) s.old.base.calls }
{
    let (slot, left) = match slots {
        Slots::Zero => {
            drop(call);
            return false;
        }
        Slots::OneSlot(a) => (a, Slots::Zero),
        Slots::TwoSlots(a, b) => (a, Slots::OneSlot(b)),
        Slots::ThreeSlots(a, b, c) => (a, Slots::TwoSlots(b, c)),
    };
    to(
        s,
        Mode::Argument(true, call, slot, left, Part::Before),
        b',',
    )
}

#[inline(always)]
pub(crate) fn delivered(call: Call, slots: Slots, s: &mut State, byte: u8) -> Moved
    ensures { IfOk result (λ on. reach on (state s.new) ≡ machine.delivered call (slot_list slots) s.old.base.open_ones (reverse s.old.base.stack.items) s.old.base.calls byte) }
{
    if byte == b',' {
        Ok(next_slot(call, slots, s))
    } else if byte == b')' && all_absent(slots) {
        ended(call, s)
    } else {
        drop(call);
        Ok(false)
    }
}

#[inline(always)]
pub(crate) fn delimiter(byte: u8) -> bool
    ensures { result ≡ machine.is_delimiter byte }
{
    byte == b',' || byte == b')'
}

#[inline(always)]
pub(crate) fn key_on(
    names: (Fun, Bytes, Bytes),
    place: Place,
    character: Character,
    s: &mut State,
    byte: u8,
) -> Moved
    ensures { IfOk result (λ on. reach on (state s.new) ≡ machine.key_on false names.0 names.1 names.2 place character s.old.base.open_ones (reverse s.old.base.stack.items) s.old.base.calls byte) }
{
    let (fun, host, key) = names;
    if key.len() >= LONGEST_KEY {
        return Ok(false);
    }
    let key = longer(key, byte)?;
    match next(place, byte) {
        None => Ok(false),
        Some(place) => match byte_grammar::next(character, byte) {
            None => Ok(false),
            Some(character) => Ok(to(s, Mode::Key(fun, host, key, place, character), byte)),
        },
    }
}

/// The bytes as a text, where they are one. Takes no memory.
#[inline(always)]
pub(crate) fn as_text(bytes: Bytes) -> Option<Text>
    ensures { result ≡ (if is_utf8 bytes then Some bytes else None) }
{
    match String::from_utf8(bytes.into_vec()) {
        Ok(text) => Some(Text::from(text)),
        Err(_) => None,
    }
}

#[inline(always)]
pub(crate) fn key_end(alloc: Global, names: (Fun, Bytes, Bytes), s: &mut State, byte: u8) -> Moved
    ensures { IfOk result (λ on. reach on (state s.new) ≡ machine.key_end names.0 names.1 names.2 s.old.base.open_ones (reverse s.old.base.stack.items) s.old.base.calls byte) }
{
    let (fun, host, key) = names;
    match as_text(host) {
        None => Ok(false),
        Some(host) => match as_text(key) {
            None => Ok(false),
            Some(key) => {
                let call = plain_call(alloc, fun, host, key);
                delivered(call, slots_of(fun), s, byte)
            }
        },
    }
}

#[inline(always)]
pub(crate) fn key_byte(
    alloc: Global,
    names: (Fun, Bytes, Bytes),
    place: Place,
    character: Character,
    s: &mut State,
    byte: u8,
) -> Moved
    ensures { IfOk result (λ on. reach on (state s.new) ≡ machine.key_byte false names.0 names.1 names.2 place character s.old.base.open_ones (reverse s.old.base.stack.items) s.old.base.calls byte) }
{
    if delimiter(byte) && may_end(place) {
        key_end(alloc, names, s, byte)
    } else {
        key_on(names, place, character, s, byte)
    }
}

/// Where an argument of a call stands: the call so far, the argument's slot and those behind it.
#[derive(Drop)]
pub(crate) struct ArgumentPlace {
    pub(crate) call: Call,
    pub(crate) slot: Slot,
    pub(crate) slots: Slots,
}

#[inline(always)]
pub(crate) fn argument_on(made: Option<Part>, at: ArgumentPlace, s: &mut State, byte: u8) -> bool
    ensures { reach result (state s.new) ≡ machine.argument_on made at.call at.slot (slot_list at.slots) s.old.base.open_ones (reverse s.old.base.stack.items) s.old.base.calls byte }
{
    let ArgumentPlace { call, slot, slots } = at;
    match made {
        Some(place) => to(s, Mode::Argument(false, call, slot, slots, place), byte),
        None => {
            drop(call);
            false
        }
    }
}

#[inline(always)]
pub(crate) fn put_text(slot: Slot, text: Text, call: Call) -> Call
    ensures { result ≡ calls.put slot (Said text) call }
{
    let mut call = call;
    match slot {
        Slot::Free => call.arg = text,
        _ => call.op = text,
    }
    call
}

#[inline(always)]
pub(crate) fn said(text: Bytes, at: ArgumentPlace, s: &mut State, byte: u8) -> Moved
    ensures { IfOk result (λ on. reach on (state s.new) ≡ machine.said text at.call at.slot (slot_list at.slots) s.old.base.open_ones (reverse s.old.base.stack.items) s.old.base.calls byte) }
{
    match as_text(text) {
        None => {
            drop(at);
            Ok(false)
        }
        Some(text) => delivered(put_text(at.slot, text, at.call), at.slots, s, byte),
    }
}

#[inline(always)]
pub(crate) fn put_range(range: Range, shift: u32, call: Call) -> Call
    ensures { result ≡ calls.put_range range shift call }
{
    let mut call = call;
    call.range = range;
    call.shift = shift;
    call
}

#[inline(always)]
pub(crate) fn argument_end(value: Value, at: ArgumentPlace, s: &mut State, byte: u8) -> Moved
    ensures { IfOk result (λ on. (place : Part) → reach on (state s.new) ≡ machine.argument_end (Some value) at.call at.slot (slot_list at.slots) place s.old.base.open_ones (reverse s.old.base.stack.items) s.old.base.calls byte) }
{
    match value {
        Value::Said(text) => said(text, at, s, byte),
        Value::Ranged(range, shift) => delivered(
            put_range(range, shift, at.call),
            at.slots,
            s,
            byte,
        ),
    }
}

/// The state behind one byte more of an argument.
#[inline(always)]
pub(crate) fn argument_more(
    alloc: Global,
    place: Part,
    at: ArgumentPlace,
    s: &mut State,
    byte: u8,
) -> Moved
    ensures { IfOk result (λ on. reach on (state s.new) ≡ machine.argument_on (parts.part at.slot place byte) at.call at.slot (slot_list at.slots) s.old.base.open_ones (reverse s.old.base.stack.items) s.old.base.calls byte) }
{
    let made = part_on(alloc, at.slot, place, byte)?;
    Ok(argument_on(made, at, s, byte))
}

#[inline(always)]
pub(crate) fn argument_byte(
    alloc: Global,
    place: Part,
    at: ArgumentPlace,
    s: &mut State,
    byte: u8,
) -> Moved
    ensures { IfOk result (λ on. reach on (state s.new) ≡ machine.argument_byte at.call at.slot (slot_list at.slots) place s.old.base.open_ones (reverse s.old.base.stack.items) s.old.base.calls byte) }
{
    if delimiter(byte) {
        match part_value(alloc, at.slot, place) {
            Ok(value) => argument_end(value, at, s, byte),
            Err(place) => argument_more(alloc, place, at, s, byte),
        }
    } else {
        argument_more(alloc, place, at, s, byte)
    }
}

#[inline(always)]
pub(crate) fn argument(
    alloc: Global,
    fresh: bool,
    place: Part,
    at: ArgumentPlace,
    s: &mut State,
    byte: u8,
) -> Moved
    ensures { IfOk result (λ on. reach on (state s.new) ≡ machine.argument fresh at.call at.slot (slot_list at.slots) place s.old.base.open_ones (reverse s.old.base.stack.items) s.old.base.calls byte) }
{
    if fresh && blank(byte) {
        let ArgumentPlace { call, slot, slots } = at;
        Ok(to(s, Mode::Argument(true, call, slot, slots, place), byte))
    } else {
        argument_byte(alloc, place, at, s, byte)
    }
}

#[inline(always)]
pub(crate) fn slash(fun: Fun, alloc: Global, s: &mut State, byte: u8) -> bool
    ensures { reach result (state s.new) ≡ machine.slash fun s.old.base.open_ones (reverse s.old.base.stack.items) s.old.base.calls byte }
{
    if byte == b'/' {
        to(s, Mode::Host(fun, Bytes::new(alloc)), byte)
    } else {
        false
    }
}

#[inline(always)]
pub(crate) fn close(call: Call, s: &mut State, byte: u8) -> Moved
    ensures { IfOk result (λ on. reach on (state s.new) ≡ machine.close call s.old.base.open_ones (reverse s.old.base.stack.items) s.old.base.calls byte) }
{
    if byte == b')' {
        ended(call, s)
    } else {
        drop(call);
        Ok(false)
    }
}

#[inline(always)]
pub(crate) fn plain_call(alloc: Global, fun: Fun, host: Text, key: Text) -> Call
    ensures { result ≡ calls.plain_call fun host key }
{
    Call {
        fun,
        host,
        key,
        range: default_range(fun),
        shift: 0,
        op: Text::new(alloc),
        arg: Text::new(alloc),
    }
}
