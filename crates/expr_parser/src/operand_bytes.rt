//! The bytes of operands: words, numbers, signs and parentheses.

ghost use Rattle.std.specs.Prelude.{◌≡◌, IfOk, reverse, nat_le, Some, None, option_map, if◌then◌else◌, pos};
ghost use Rattle.expr_parser.specs.Calls as calls;
ghost use Rattle.expr_parser.specs.Machine as machine;
ghost use Rattle.expr_parser.specs.Staying.{reach};
ghost use Rattle.expr_parser.specs.View.{state};
ghost use Rattle.zbx_types.specs.Tree as trees;
ghost use Rattle.zbx_types.specs.Trees.{tree_of};

use crate::call_bytes::plain_call;
use crate::figures::{Figures, figure, first_figure, is_figure, longer, value};
use crate::names::{begun, is_not, named};
use crate::operator_bytes::behind;
use crate::pending::{Half, floor};
use crate::states::{MOST_CALLS, Mode, Moved, State, blank, gap, opened, to, waiting};
use crate::whole_numbers::GREATEST;
use std::alloc::Global;
use zbx_types::{Bytes, Expr, Fix, Fun, OutOfMemory, Text};

#[inline(always)]
pub(crate) fn word_byte(nots: bool, text: Bytes, byte: u8, s: &mut State) -> Moved
    ensures { IfOk result (λ on. reach on (state s.new) ≡ machine.word_byte nots text byte s.old.base.open_ones (reverse s.old.base.stack.items) s.old.base.calls) }
{
    let text = longer(text, byte)?;
    if begun(nots, s.base.calls.len() < MOST_CALLS, text.as_slice()) {
        Ok(to(s, Mode::Word(nots, text), byte))
    } else {
        Ok(false)
    }
}

#[inline(always)]
pub(crate) fn numbered(made: Option<Figures>, byte: u8, s: &mut State) -> bool
    ensures { reach result (state s.new) ≡ machine.numbered made byte s.old.base.open_ones (reverse s.old.base.stack.items) s.old.base.calls }
{
    match made {
        Some(figures) => to(s, Mode::Number(figures), byte),
        None => false,
    }
}

#[inline(always)]
pub(crate) fn signed(byte: u8, s: &mut State) -> Moved
    ensures { IfOk result (λ on. reach on (state s.new) ≡ machine.signed byte s.old.base.open_ones (reverse s.old.base.stack.items) s.old.base.calls) }
{
    if floor(&s.base.stack) <= 7 {
        waiting(Half::Negated, &mut s.base)?;
        Ok(to(s, Mode::Operand, byte))
    } else {
        Ok(false)
    }
}

#[inline(always)]
pub(crate) fn operand(alloc: Global, s: &mut State, byte: u8) -> Moved
    ensures { IfOk result (λ on. reach on (state s.new) ≡ machine.operand s.old.last s.old.base.open_ones (reverse s.old.base.stack.items) s.old.base.calls byte) }
{
    if byte <= b'9' {
        if b'0' <= byte {
            Ok(numbered(first_figure(alloc, GREATEST, byte)?, byte, s))
        } else if byte == b'(' {
            opened(s)
        } else if byte == b'-' {
            signed(byte, s)
        } else {
            Ok(false)
        }
    } else {
        let nots = gap(s.last) && floor(&s.base.stack) <= 6;
        word_byte(nots, Bytes::new(alloc), byte, s)
    }
}

#[inline(always)]
pub(crate) fn blank_or(alloc: Global, s: &mut State, byte: u8) -> Moved
    ensures { IfOk result (λ on. reach on (state s.new) ≡ machine.blank_or s.old.last s.old.base.open_ones (reverse s.old.base.stack.items) s.old.base.calls byte) }
{
    if blank(byte) {
        Ok(to(s, Mode::Operand, byte))
    } else {
        operand(alloc, s, byte)
    }
}

#[inline(always)]
pub(crate) fn behind_word(s: &mut State, byte: u8) -> Moved
    ensures { IfOk result (λ on. reach on (state s.new) ≡ machine.behind_word s.old.base.open_ones (reverse s.old.base.stack.items) s.old.base.calls byte) }
{
    if blank(byte) {
        Ok(to(s, Mode::Operand, byte))
    } else if byte == b'(' {
        opened(s)
    } else {
        Ok(false)
    }
}

pub(crate) fn denied(text: &[u8], nots: bool, s: &mut State) -> Moved
    ensures { IfOk result (λ on. reach on (state s.new) ≡ machine.denied text.now nots s.old.base.open_ones (reverse s.old.base.stack.items) s.old.base.calls) }
{
    if nots && is_not(text) {
        waiting(Half::Denied, &mut s.base)?;
        opened(s)
    } else {
        Ok(false)
    }
}

#[inline(always)]
pub(crate) fn calling(alloc: Global, fun: Fun, s: &mut State) -> bool
    ensures { reach result (state s.new) ≡ Some (machine.calling fun s.old.base.open_ones (reverse s.old.base.stack.items) s.old.base.calls) }
{
    if fun.is_dated() {
        let call = plain_call(alloc, fun, Text::new(alloc), Text::new(alloc));
        to(s, Mode::Close(call), b'(')
    } else {
        to(s, Mode::Slash(fun), b'(')
    }
}

#[inline(always)]
pub(crate) fn called(alloc: Global, nots: bool, text: &[u8], s: &mut State) -> Moved
    ensures { IfOk result (λ on. reach on (state s.new) ≡ machine.called (if machine.has_room s.old.base.calls then machine.function_of text.now else None) nots text.now s.old.base.open_ones (reverse s.old.base.stack.items) s.old.base.calls) }
{
    if s.base.calls.len() < MOST_CALLS {
        match named(text) {
            Some(fun) => Ok(calling(alloc, fun, s)),
            None => denied(text, nots, s),
        }
    } else {
        denied(text, nots, s)
    }
}

#[inline(always)]
pub(crate) fn word(alloc: Global, nots: bool, text: Bytes, s: &mut State, byte: u8) -> Moved
    ensures { IfOk result (λ on. reach on (state s.new) ≡ machine.word nots text s.old.base.open_ones (reverse s.old.base.stack.items) s.old.base.calls byte) }
{
    if byte == b'(' {
        called(alloc, nots, text.as_slice(), s)
    } else if blank(byte) {
        if nots && is_not(text.as_slice()) {
            waiting(Half::Denied, &mut s.base)?;
            Ok(to(s, Mode::Operand, byte))
        } else {
            Ok(false)
        }
    } else {
        word_byte(nots, text, byte, s)
    }
}

/// The constant of so many millionths, where they are in range.
pub(crate) fn constant(millionths: u128) -> Option<Expr>
    ensures { option_map tree_of result ≡ (if nat_le millionths calls.greatest_number then Some (trees.constant (pos millionths)) else None) }
{
    if millionths <= GREATEST {
        match Fix::of_raw(millionths as i128) {
            Some(number) => Some(Expr::Const(number)),
            None => None,
        }
    } else {
        None
    }
}

#[inline(always)]
pub(crate) fn number_end(alloc: Global, value: Option<u128>, s: &mut State, byte: u8) -> Moved
    ensures { IfOk result (λ on. reach on (state s.new) ≡ machine.number_end value s.old.last s.old.base.open_ones (reverse s.old.base.stack.items) s.old.base.calls byte) }
{
    match value {
        None => Ok(false),
        Some(n) => match constant(n) {
            None => Ok(false),
            Some(left) => behind(alloc, left, s, byte),
        },
    }
}

#[inline(always)]
pub(crate) fn number(alloc: Global, figures: Figures, s: &mut State, byte: u8) -> Moved
    ensures { IfOk result (λ on. reach on (state s.new) ≡ machine.number figures s.old.last s.old.base.open_ones (reverse s.old.base.stack.items) s.old.base.calls byte) }
{
    if is_figure(byte) {
        Ok(numbered(figure(GREATEST, figures, byte)?, byte, s))
    } else {
        number_end(alloc, value(&figures), s, byte)
    }
}
