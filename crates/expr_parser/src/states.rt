//! Where an expression stands.

ghost use Rattle.std.specs.Prelude.{◌≡◌, ◌∷◌, IfOk, OnOk, reverse, Some};
ghost use Rattle.expr_parser.specs.Bytes as bytes;
ghost use Rattle.expr_parser.specs.Machine as machine;
ghost use Rattle.expr_parser.specs.Staying.{reach};
ghost use Rattle.expr_parser.specs.View as view;
ghost use Rattle.expr_parser.specs.View.{state};
ghost use Rattle.expr_parser.specs.declared.pending.Pending.TheVariants.{Waits};

use crate::figures::Figures;
use crate::parts::Part;
use crate::pending::{Half, Pending, Rest};
use crate::slots::{Slot, Slots};
use byte_grammar::Character;
use item_key::Place;
use std::mem::replace;
use zbx_types::{Bytes, Call, Expr, Fun, Many, Op, OutOfMemory};

/// The most calls of functions in an expression (this project's own).
pub(crate) const MOST_CALLS: usize = 32;

/// The most parentheses that are open at one place, those of calls aside (this project's own).
pub(crate) const MOST_OPEN: u32 = 32;

/// A place in a token.
#[derive(Drop)]
pub(crate) enum Mode {
    /// At the beginning.
    Begin,
    /// Before an operand.
    Operand,
    /// In a word, which may be `not` where the first part says so.
    Word(bool, Bytes),
    /// In a number.
    Number(Figures),
    /// Before the slash in front of a host.
    Slash(Fun),
    /// In a host.
    Host(Fun, Bytes),
    /// In a key behind a host, and in its character.
    Key(Fun, Bytes, Bytes, Place, Character),
    /// In an argument, or still before it where the first part says so; with the arguments behind it.
    Argument(bool, Call, Slot, Slots, Part),
    /// Before the parenthesis that ends a call.
    Close(Call),
    /// Behind an operand.
    Done(Expr),
    /// Behind an operand and `<`.
    Less(Expr),
    /// Behind an operand and `>`.
    Greater(Expr),
    /// Behind an operand and the first letters of a word.
    Joint(Op, Rest, Expr),
}

/// How many parentheses are open, what waits, the innermost last, and the calls so far.
#[derive(Drop)]
pub(crate) struct Base {
    pub(crate) open_ones: u32,
    pub(crate) stack: Vec<Pending>,
    pub(crate) calls: Many<Call>,
}

/// Where an expression stands.
#[derive(Drop)]
pub(crate) struct State {
    pub(crate) mode: Mode,
    pub(crate) last: u8,
    pub(crate) base: Base,
}

/// An expression and its calls.
#[derive(Drop)]
pub(crate) struct Whole {
    pub(crate) expr: Expr,
    pub(crate) calls: Many<Call>,
}

#[inline(always)]
pub(crate) fn blank(byte: u8) -> bool
    ensures { result ≡ bytes.is_blank byte }
{
    byte == b' ' || byte == b'\t' || byte == b'\r' || byte == b'\n'
}

#[inline(always)]
pub(crate) fn gap(byte: u8) -> bool
    ensures { result ≡ bytes.is_gap byte }
{
    byte == b'(' || byte == b')' || blank(byte)
}

/// Whether an expression goes on with a byte. Where it doesn't, the state is any.
pub(crate) type Moved = Result<bool, OutOfMemory>;

/// Goes on in that place, behind that byte.
#[inline(always)]
pub(crate) fn to(s: &mut State, mode: Mode, last: u8) -> bool
    ensures { reach result (state s.new) ≡ Some (machine.state (view.mode mode) last s.old.base.open_ones (reverse s.old.base.stack.items) s.old.base.calls) }
{
    drop(replace(&mut s.mode, mode));
    s.last = last;
    true
}

/// One more waits for its operand.
#[inline(always)]
pub(crate) fn waiting(half: Half, base: &mut Base) -> Result<(), OutOfMemory>
    ensures open { OnOk result (base.new.open_ones ≡ base.old.open_ones) }
    ensures stack { OnOk result (reverse base.new.stack.items ≡ Waits half ∷ reverse base.old.stack.items) }
    ensures calls { OnOk result (base.new.calls ≡ base.old.calls) }
{
    base.stack.push(Pending::Waits(half))?;
    Ok(())
}

#[inline(always)]
pub(crate) fn opened(s: &mut State) -> Moved
    ensures { IfOk result (λ on. reach on (state s.new) ≡ machine.opened s.old.base.open_ones (reverse s.old.base.stack.items) s.old.base.calls) }
{
    if s.base.open_ones < MOST_OPEN {
        s.base.stack.push(Pending::Open)?;
        s.base.open_ones += 1;
        Ok(to(s, Mode::Operand, b'('))
    } else {
        Ok(false)
    }
}
