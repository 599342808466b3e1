//! What waits for its operand.

ghost use Rattle.std.specs.Prelude.{◌≡◌, IfOk, reverse};
ghost use Rattle.expr_parser.specs.Grammar as grammar;
ghost use Rattle.expr_parser.specs.Machine as machine;
ghost use Rattle.zbx_types.specs.Trees.{tree_of};

use std::alloc::Global;
use zbx_types::{Expr, Op, Operand, OutOfMemory};

/// What waits for one operand: an operator with its left one, `not` or a sign.
#[derive(Drop)]
pub(crate) enum Half {
    Left(Op, Operand),
    Denied,
    Negated,
}

/// An open parenthesis, or what waits for its operand.
#[derive(Drop)]
pub(crate) enum Pending {
    Open,
    Waits(Half),
}

/// What of `and` or `or` is still to come.
#[derive(Clone, Copy)]
pub(crate) enum Rest {
    /// `nd`.
    Nd,
    /// `d`.
    D,
    /// `r`.
    R,
    /// Nothing.
    Nothing,
}

/// The level of an operator, the loosest first.
pub(crate) fn level(op: Op) -> u8
    ensures { result ≡ grammar.op_level op }
{
    match op {
        Op::Or => 0,
        Op::And => 1,
        Op::Eq => 2,
        Op::Ne => 2,
        Op::Lt => 3,
        Op::Le => 3,
        Op::Gt => 3,
        Op::Ge => 3,
        Op::Add => 4,
        Op::Sub => 4,
        Op::Mul => 5,
        Op::Div => 5,
    }
}

fn half_level(half: &Half) -> u8
    ensures { result ≡ machine.half_level half.now }
{
    match half {
        Half::Left(op, _) => level(*op),
        Half::Denied => 6,
        Half::Negated => 7,
    }
}

/// An operator, `not` or a sign with its operand.
fn applied(alloc: Global, half: Half, operand: Expr) -> Result<Expr, OutOfMemory>
    ensures { IfOk result (λ made. tree_of made ≡ machine.applied half (tree_of operand)) }
{
    let operand = Operand::new(alloc, operand)?;
    match half {
        Half::Left(op, left) => Ok(Expr::Bin(op, left, operand)),
        Half::Denied => Ok(Expr::Not(operand)),
        Half::Negated => Ok(Expr::Neg(operand)),
    }
}

fn level_at(stack: &[Pending]) -> u8
    ensures { result ≡ machine.floor (reverse stack.now) }
{
    match stack {
        [.., Pending::Waits(half)] => half_level(half) + 1,
        _ => 0,
    }
}

/// The loosest level that an operand may have behind what waits, as a number from 0 to 8.
pub(crate) fn floor(stack: &Vec<Pending>) -> u8
    ensures { result ≡ machine.floor (reverse stack.now.items) }
{
    level_at(stack.as_slice())
}

/// What waits, and an operand behind it.
#[derive(Drop)]
pub(crate) struct Reduced {
    pub(crate) stack: Vec<Pending>,
    pub(crate) operand: Expr,
}

/// What is left to wait, and the operand, once all that bind as tightly as a level or more have theirs.
pub(crate) fn reduce(
    alloc: Global,
    level: u8,
    stack: Vec<Pending>,
    operand: Expr,
) -> Result<Reduced, OutOfMemory>
    ensures { IfOk result (λ r. machine.Same (reverse r.stack.items) (tree_of r.operand) (machine.reduced level (reverse stack.items) (tree_of operand))) }
{
    let mut stack = stack;
    let mut operand = operand;
    while floor(&stack) > level {
        match stack.pop() {
            Some(Pending::Waits(half)) => operand = applied(alloc, half, operand)?,
            other => {
                drop(other);
                return Ok(Reduced { stack, operand });
            }
        }
    }
    Ok(Reduced { stack, operand })
}
