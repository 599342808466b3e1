//! Expressions of triggers that lie flat: each node stands before its operands, the left one first.

ghost use Rattle.std.specs.Prelude.{◌≡◌, ◌++◌, [], ℕ, List, map, slice_index_or, OnOk, IfOk};
ghost use Rattle.zbx_types.specs.Trees.{tree_of};
ghost use Rattle.conf_index.specs.Plans.{flat, plan_of, recovery_plan_of};
ghost use Rattle.conf_index.specs.Packed.{row_at};
ghost use Rattle.conf_index.specs.declared.plans.Node.{Node};

use crate::packed::{Packed, begin};
use std::alloc::Global;
use zbx_types::{Expr, Fix, Many, Op, OutOfMemory, Trigger};

/// A node of an expression that lies flat, before its operands.
#[derive(Clone, Copy)]
pub enum Node {
    /// A constant.
    Const(Fix),
    /// The value of the call at this place.
    Called(u32),
    /// `-`, before its operand.
    Neg,
    /// `not`, before its operand.
    Not,
    /// A binary operator, before its left and its right operand.
    Bin(Op),
}

/// Adds the nodes of an expression.
fn add(nodes: &mut Many<Node>, expr: &Expr) -> Result<(), OutOfMemory>
    ensures { OnOk result ((rest : List Node) → nodes.new ++ rest ≡ nodes.old ++ flat (tree_of expr.now) rest) }
{
    match expr {
        Expr::Const(number) => nodes.push(Node::Const(*number))?,
        Expr::Call(place) => nodes.push(Node::Called(*place))?,
        Expr::Neg(operand) => {
            nodes.push(Node::Neg)?;
            add(nodes, operand.expr())?;
        }
        Expr::Not(operand) => {
            nodes.push(Node::Not)?;
            add(nodes, operand.expr())?;
        }
        Expr::Bin(op, left, right) => {
            nodes.push(Node::Bin(*op))?;
            add(nodes, left.expr())?;
            add(nodes, right.expr())?;
        }
    }
    Ok(())
}

/// Adds the nodes of a trigger's recovery expression, where it has one.
fn add_recovery(nodes: &mut Many<Node>, trigger: &Trigger) -> Result<(), OutOfMemory>
    ensures { OnOk result (nodes.new ≡ nodes.old ++ recovery_plan_of trigger.now) }
{
    if let Some(expr) = &trigger.recovery_expr {
        add(nodes, expr)?;
    }
    Ok(())
}

/// The nodes of each trigger's expression, by the places of triggers.
pub(crate) fn plans_of(alloc: Global, triggers: &[Trigger]) -> Result<Packed<Node>, OutOfMemory>
    ensures { IfOk result (λ made. (number : ℕ) → row_at made.starts made.items number ≡ slice_index_or
        (map plan_of triggers.now) number []) }
{
    let mut made = Packed {
        starts: Many::new(alloc),
        items: Many::new(alloc),
    };
    for trigger in triggers {
        begin(&mut made)?;
        add(&mut made.items, &trigger.expr)?;
    }
    Ok(made)
}

/// The nodes of each trigger's recovery expression, none where it has none, by the places of triggers.
pub(crate) fn recovery_plans_of(
    alloc: Global,
    triggers: &[Trigger],
) -> Result<Packed<Node>, OutOfMemory>
    ensures { IfOk result (λ made. (number : ℕ) → row_at made.starts made.items number ≡ slice_index_or
        (map recovery_plan_of triggers.now) number []) }
{
    let mut made = Packed {
        starts: Many::new(alloc),
        items: Many::new(alloc),
    };
    for trigger in triggers {
        begin(&mut made)?;
        add_recovery(&mut made.items, trigger)?;
    }
    Ok(made)
}
