//! The bytes behind operands: operators and the parentheses that close.

ghost use Rattle.std.specs.Prelude.{◌≡◌, IfOk, OnOk, reverse, Some, None};
ghost use Rattle.expr_parser.specs.Machine as machine;
ghost use Rattle.expr_parser.specs.Staying.{reach};
ghost use Rattle.expr_parser.specs.View.{state};
ghost use Rattle.zbx_types.specs.Trees.{tree_of};

use crate::operand_bytes::{behind_word, blank_or};
use crate::pending::{Half, Pending, Rest, level, reduce};
use crate::states::{Base, Mode, Moved, State, blank, gap, to};
use std::alloc::Global;
use std::mem::replace;
use zbx_types::{Expr, Op, Operand, OutOfMemory};

/// An operator waits with its left operand, once all that bind as tightly have theirs.
#[inline(always)]
pub(crate) fn with_op(alloc: Global, op: Op, left: Expr, base: &mut Base) -> Result<(), OutOfMemory>
    ensures open { OnOk result (base.new.open_ones ≡ base.old.open_ones) }
    ensures stack { OnOk result (reverse base.new.stack.items ≡ machine.with_op op (tree_of left) (reverse base.old.stack.items)) }
    ensures calls { OnOk result (base.new.calls ≡ base.old.calls) }
{
    let made = reduce(
        alloc,
        level(op),
        replace(&mut base.stack, Vec::new(alloc)),
        left,
    )?;
    let left = Operand::new(alloc, made.operand)?;
    base.stack = made.stack;
    base.stack.push(Pending::Waits(Half::Left(op, left)))?;
    Ok(())
}

#[inline(always)]
pub(crate) fn operated(alloc: Global, op: Op, left: Expr, byte: u8, s: &mut State) -> Moved
    ensures { IfOk result (λ on. reach on (state s.new) ≡ Some (machine.state machine.Operand byte s.old.base.open_ones (machine.with_op op (tree_of left) (reverse s.old.base.stack.items)) s.old.base.calls)) }
{
    with_op(alloc, op, left, &mut s.base)?;
    Ok(to(s, Mode::Operand, byte))
}

#[inline(always)]
pub(crate) fn closed(alloc: Global, left: Expr, s: &mut State) -> Moved
    ensures { IfOk result (λ on. reach on (state s.new) ≡ machine.closed (tree_of left) s.old.base.open_ones (reverse s.old.base.stack.items) s.old.base.calls) }
{
    let made = reduce(alloc, 0, replace(&mut s.base.stack, Vec::new(alloc)), left)?;
    s.base.stack = made.stack;
    match s.base.stack.pop() {
        Some(Pending::Open) if s.base.open_ones > 0 => {
            s.base.open_ones -= 1;
            Ok(to(s, Mode::Done(made.operand), b')'))
        }
        other => {
            drop(other);
            drop(made.operand);
            Ok(false)
        }
    }
}

#[inline(always)]
pub(crate) fn simple_op(byte: u8) -> Option<Op>
    ensures { result ≡ machine.simple_op byte }
{
    if byte == b'+' {
        Some(Op::Add)
    } else if byte == b'-' {
        Some(Op::Sub)
    } else if byte == b'*' {
        Some(Op::Mul)
    } else if byte == b'/' {
        Some(Op::Div)
    } else if byte == b'=' {
        Some(Op::Eq)
    } else {
        None
    }
}

#[inline(always)]
pub(crate) fn joint(op: Op, rest: Rest, left: Expr, byte: u8, s: &mut State) -> bool
    ensures { reach result (state s.new) ≡ machine.joint s.old.last op rest (tree_of left) byte s.old.base.open_ones (reverse s.old.base.stack.items) s.old.base.calls }
{
    if gap(s.last) {
        to(s, Mode::Joint(op, rest, left), byte)
    } else {
        drop(left);
        false
    }
}

#[inline(always)]
pub(crate) fn behind_other(left: Expr, s: &mut State, byte: u8) -> bool
    ensures { reach result (state s.new) ≡ machine.behind_other (tree_of left) s.old.last s.old.base.open_ones (reverse s.old.base.stack.items) s.old.base.calls byte None }
{
    if byte == b'<' {
        to(s, Mode::Less(left), byte)
    } else if byte == b'>' {
        to(s, Mode::Greater(left), byte)
    } else if byte == b'o' {
        joint(Op::Or, Rest::R, left, byte, s)
    } else if byte == b'a' {
        joint(Op::And, Rest::Nd, left, byte, s)
    } else {
        drop(left);
        false
    }
}

#[inline(always)]
pub(crate) fn behind(alloc: Global, left: Expr, s: &mut State, byte: u8) -> Moved
    ensures { IfOk result (λ on. reach on (state s.new) ≡ machine.behind (tree_of left) s.old.last s.old.base.open_ones (reverse s.old.base.stack.items) s.old.base.calls byte) }
{
    if blank(byte) {
        return Ok(to(s, Mode::Done(left), byte));
    }
    if byte == b')' {
        return closed(alloc, left, s);
    }
    match simple_op(byte) {
        Some(op) => operated(alloc, op, left, byte, s),
        None => Ok(behind_other(left, s, byte)),
    }
}

#[inline(always)]
pub(crate) fn behind_less(alloc: Global, left: Expr, s: &mut State, byte: u8) -> Moved
    ensures { IfOk result (λ on. reach on (state s.new) ≡ machine.behind_less (tree_of left) s.old.last s.old.base.open_ones (reverse s.old.base.stack.items) s.old.base.calls byte) }
{
    if byte == b'=' {
        operated(alloc, Op::Le, left, byte, s)
    } else if byte == b'>' {
        operated(alloc, Op::Ne, left, byte, s)
    } else {
        with_op(alloc, Op::Lt, left, &mut s.base)?;
        blank_or(alloc, s, byte)
    }
}

#[inline(always)]
pub(crate) fn behind_greater(alloc: Global, left: Expr, s: &mut State, byte: u8) -> Moved
    ensures { IfOk result (λ on. reach on (state s.new) ≡ machine.behind_greater (tree_of left) s.old.last s.old.base.open_ones (reverse s.old.base.stack.items) s.old.base.calls byte) }
{
    if byte == b'=' {
        operated(alloc, Op::Ge, left, byte, s)
    } else {
        with_op(alloc, Op::Gt, left, &mut s.base)?;
        blank_or(alloc, s, byte)
    }
}

#[inline(always)]
pub(crate) fn joint_on(want: u8, next: Rest, op: Op, left: Expr, s: &mut State, byte: u8) -> bool
    ensures { reach result (state s.new) ≡ machine.joint_on want next op (tree_of left) s.old.base.open_ones (reverse s.old.base.stack.items) s.old.base.calls byte }
{
    if byte == want {
        to(s, Mode::Joint(op, next, left), byte)
    } else {
        drop(left);
        false
    }
}

#[inline(always)]
pub(crate) fn joint_byte(
    alloc: Global,
    op: Op,
    rest: Rest,
    left: Expr,
    s: &mut State,
    byte: u8,
) -> Moved
    ensures { IfOk result (λ on. reach on (state s.new) ≡ machine.joint_byte op rest (tree_of left) s.old.base.open_ones (reverse s.old.base.stack.items) s.old.base.calls byte) }
{
    match rest {
        Rest::Nd => Ok(joint_on(b'n', Rest::D, op, left, s, byte)),
        Rest::D => Ok(joint_on(b'd', Rest::Nothing, op, left, s, byte)),
        Rest::R => Ok(joint_on(b'r', Rest::Nothing, op, left, s, byte)),
        Rest::Nothing => {
            with_op(alloc, op, left, &mut s.base)?;
            behind_word(s, byte)
        }
    }
}
