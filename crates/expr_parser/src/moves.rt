//! Expressions byte by byte.

ghost use Rattle.std.specs.Prelude.{◌≡◌, IfOk, reverse, Some, false, option_map};
ghost use Rattle.expr_parser.specs.Machine as machine;
ghost use Rattle.expr_parser.specs.Staying.{reach};
ghost use Rattle.expr_parser.specs.View.{state, whole_of};
ghost use Rattle.zbx_types.specs.Trees.{tree_of};

use crate::call_bytes::{ArgumentPlace, argument, close, host, key_byte, slash};
use crate::figures::value;
use crate::operand_bytes::{blank_or, constant, number, operand, word};
use crate::operator_bytes::{behind, behind_greater, behind_less, joint_byte};
use crate::pending::reduce;
use crate::states::{Base, Mode, Moved, State, Whole, blank};
use std::alloc::Global;
use std::mem::replace;
use zbx_types::{Expr, OutOfMemory};

/// Goes on by one byte. It isn't a part of its caller, so that the bytes that stay in a token take little time.
#[inline(never)]
pub(crate) fn move_on(alloc: Global, s: &mut State, byte: u8) -> Moved
    ensures { IfOk result (λ on. reach on (state s.new) ≡ machine.step false (state s.old) byte) }
{
    match replace(&mut s.mode, Mode::Begin) {
        Mode::Begin => operand(alloc, s, byte),
        Mode::Operand => blank_or(alloc, s, byte),
        Mode::Word(nots, text) => word(alloc, nots, text, s, byte),
        Mode::Number(figures) => number(alloc, figures, s, byte),
        Mode::Slash(fun) => Ok(slash(fun, alloc, s, byte)),
        Mode::Host(fun, text) => host(alloc, fun, text, s, byte),
        Mode::Key(fun, host, key, place, character) => {
            key_byte(alloc, (fun, host, key), place, character, s, byte)
        }
        Mode::Argument(fresh, call, slot, slots, place) => {
            let at = ArgumentPlace { call, slot, slots };
            argument(alloc, fresh, place, at, s, byte)
        }
        Mode::Close(call) => close(call, s, byte),
        Mode::Done(left) => behind(alloc, left, s, byte),
        Mode::Less(left) => behind_less(alloc, left, s, byte),
        Mode::Greater(left) => behind_greater(alloc, left, s, byte),
        Mode::Joint(op, rest, left) => joint_byte(alloc, op, rest, left, s, byte),
    }
}

pub(crate) fn last_whole(
    alloc: Global,
    left: Expr,
    last: u8,
    base: Base,
) -> Result<Option<Whole>, OutOfMemory>
    ensures { IfOk result (λ r. option_map whole_of r ≡ machine.ends_by (Some (tree_of left)) last (reverse base.stack.items) base.calls) }
{
    if blank(last) {
        drop(left);
        drop(base);
        return Ok(None);
    }
    let made = reduce(alloc, 0, base.stack, left)?;
    if made.stack.is_empty() {
        Ok(Some(Whole {
            expr: made.operand,
            calls: base.calls,
        }))
    } else {
        drop(made);
        Ok(None)
    }
}

pub(crate) fn number_whole(
    alloc: Global,
    value: Option<u128>,
    last: u8,
    base: Base,
) -> Result<Option<Whole>, OutOfMemory>
    ensures { IfOk result (λ r. option_map whole_of r ≡ machine.ends_by (machine.constant_of value) last (reverse base.stack.items) base.calls) }
{
    match value {
        None => {
            drop(base);
            Ok(None)
        }
        Some(n) => match constant(n) {
            None => {
                drop(base);
                Ok(None)
            }
            Some(left) => last_whole(alloc, left, last, base),
        },
    }
}

/// The expression and its calls, where they may end here.
pub(crate) fn finished(alloc: Global, s: State) -> Result<Option<Whole>, OutOfMemory>
    ensures { IfOk result (λ r. option_map whole_of r ≡ machine.ends (state s)) }
{
    let State { mode, last, base } = s;
    match mode {
        Mode::Number(figures) => number_whole(alloc, value(&figures), last, base),
        Mode::Done(left) => last_whole(alloc, left, last, base),
        other => {
            drop(other);
            drop(base);
            Ok(None)
        }
    }
}
