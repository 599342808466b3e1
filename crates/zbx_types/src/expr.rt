//! Expressions of triggers.

ghost use Rattle.std.specs.Prelude.{◌≡◌, IfOk};
ghost use Rattle.zbx_types.specs.Trees.{tree_of};

use crate::fix::Fix;
use crate::memory::OutOfMemory;
use std::alloc::Global;
use std::marker::Model;

/// A binary operator (the Zabbix 6.0 manual, "Trigger expression", operators).
///
/// Comparisons, `and` and `or` give 1 or 0, and a number other than 0 counts as true.
#[derive(Clone, Copy, Debug, PartialEq, Eq)]
pub enum Op {
    /// `or`: 1 where an operand is true.
    Or,
    /// `and`: 1 where both operands are true.
    And,
    /// `=`: equal.
    Eq,
    /// `<>`: not equal.
    Ne,
    /// `<`: less than.
    Lt,
    /// `<=`: at most.
    Le,
    /// `>`: greater than.
    Gt,
    /// `>=`: at least.
    Ge,
    /// `+`: the sum.
    Add,
    /// `-`: the difference.
    Sub,
    /// `*`: the product.
    Mul,
    /// `/`: the quotient.
    Div,
}

/// An expression of a trigger (the Zabbix 6.0 manual, "Trigger expression").
#[cycle(expr)]
#[derive(Drop)]
pub enum Expr {
    /// A constant, its suffix multiplied in.
    Const(Fix),
    /// The value of a call, named by its place in its trigger's list of calls, counted from 0.
    Call(u32),
    /// `-`: the operand with the other sign.
    Neg(Operand),
    /// `not`: 1 where the operand is 0, else 0.
    Not(Operand),
    /// A binary operator with its left and its right operand.
    Bin(Op, Operand, Operand),
}

/// An operand: an expression in a box. Contracts see the expression as a tree, without where it lies in memory.
#[cycle(expr)]
#[derive(Drop)]
pub struct Operand {
    expr: Box<Expr>,
}

impl Model for Operand {
    ghost use Rattle.zbx_types.specs.Tree.{Tree, tree_code, tree_size};

    ghost Value = { Tree };

    ghost coded = { tree_code };

    ghost use Rattle.zbx_types.specs.Trees.{tree_of};

    ghost view = { λ o. tree_of o.expr.value };

    ghost size = { tree_size };

    ghost use Rattle.zbx_types.specs.TreeFalls.{depth_le_size};

    ghost size_decreases = { λ o h. depth_le_size o.expr.value };
}

impl Operand {
    /// An operand that holds an expression. [`OutOfMemory`] where there is no room for its box.
    pub fn new(alloc: Global, expr: Expr) -> Result<Operand, OutOfMemory>
        ensures { IfOk result (λ made. made ≡ tree_of expr) }
    {
        match Box::new(alloc, expr) {
            Ok(expr) => Ok(Operand { expr }),
            Err(_) => Err(OutOfMemory),
        }
    }

    /// The expression that it holds.
    pub fn expr(&self) -> &Expr
        ensures { tree_of result.now ≡ self.now }
    {
        &self.expr
    }
}
