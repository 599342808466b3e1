//! What the expressions of triggers mean.

ghost use Rattle.std.specs.Prelude.{◌≡◌, ◌+◌, ◌++◌, ◌∷◌, [], ◌||◌, false, None, map, codes, IfOk, OnOk};
ghost use Rattle.std.specs.List.{list_any};
ghost use Rattle.std.specs.Option.{option_or};
ghost use Rattle.zbx_types.specs.Tree.{Tree};
ghost use Rattle.zbx_types.specs.Trees.{tree_of};
ghost use Rattle.host_layout.specs.Answers.{GivesAs};
ghost use Rattle.host_layout.specs.Elements.{placed_trigger};
ghost use Rattle.config_templates.specs.Expressions.{call_of, id_of, is_misread, call_cause, first_cause, by_items, resolved_at, later, joined, alone, with_recovery, meant_by, expressions_of};
ghost use Rattle.config_templates.specs.Meanings.{member_path, parsed_now, looked_maybe, resolved_now, meant_now};
ghost use Rattle.host_layout.specs.Owners.{owner_now, sources_now, KnowsSources};
ghost use Rattle.config_templates.specs.Scopes.{IsScope, seen_by};
ghost use Rattle.macro_text.specs.Expanded.{expanded};

use crate::expressions::expression;
use crate::functions::{lacks_number, takes};
use crate::meanings::{LookedAt, Scope, looked_at};
use crate::members::Member;
use config_read::RawTrigger;
use expr_parser::Parsed;
use host_layout::{FlatError, Owner, Source, beside};
use std::alloc::Global;
use zbx_types::{Call, Cause, Expr, Many, Operand, OutOfMemory, RecoveryMode, Text};

/// The calls of an expression by the items that they look at, and what is wrong with them.
#[derive(Drop)]
pub(crate) struct CallList {
    /// The calls, by the names of their items' hosts.
    pub calls: Many<Call>,
    /// For each call the id of its item, or 0.
    pub call_items: Many<u32>,
    /// Whether an argument of some call must be a number and is none.
    pub misread: bool,
    /// What else is wrong with the first call that something is wrong with.
    pub cause: Option<Cause>,
}

/// An expression by the items that its calls look at.
#[derive(Drop)]
pub(crate) struct Resolution {
    pub expr: Expr,
    pub calls: Many<Call>,
    pub call_items: Many<u32>,
}

/// What the expressions of a trigger mean.
#[derive(Drop)]
pub(crate) struct Meaning {
    pub expr: Expr,
    pub recovery_expr: Option<Expr>,
    /// The calls of the expression.
    pub calls: Many<Call>,
    /// Those of the recovery expression, whose places are behind them.
    pub recovery_calls: Many<Call>,
    /// For each call of both the id of its item, or 0.
    pub call_items: Many<u32>,
}

/// Whether an argument of a call must be a number, by the item that it looks at, and is none.
fn is_misread(call: &Call, looked: &Option<LookedAt>) -> bool
    ensures { result ≡ is_misread call.now (looked_maybe looked.now) }
{
    match looked {
        Some(item) => lacks_number(call, item.value_type),
        None => false,
    }
}

/// What else is wrong with a call, by the item that it looks at.
fn call_cause(call: &Call, looked: &Option<LookedAt>) -> Option<Cause>
    ensures { result ≡ call_cause call.now (looked_maybe looked.now) }
{
    match looked {
        Some(item) if takes(call, item.value_type) => None,
        Some(_) => Some(Cause::WrongValueType),
        None if call.fun.is_dated() => None,
        None => Some(Cause::UnknownName),
    }
}

/// The id of the item that a call looks at, or 0.
fn item_id(looked: &Option<LookedAt>) -> u32
    ensures { result ≡ id_of (looked_maybe looked.now) }
{
    match looked {
        Some(item) => item.id,
        None => 0,
    }
}

/// A call by the name of its item's host.
fn hosted(call: Call, looked: Option<LookedAt>) -> Call
    ensures { result ≡ call_of call (looked_maybe looked) }
{
    match looked {
        Some(item) => {
            let mut call = call;
            call.host = item.host;
            call
        }
        None => call,
    }
}

/// No calls, and room for so many.
fn with_room(alloc: Global, room: usize) -> Result<CallList, OutOfMemory>
    ensures calls { IfOk result (λ l. l.calls ≡ []) }
    ensures items { IfOk result (λ l. l.call_items ≡ []) }
    ensures misread { IfOk result (λ l. l.misread ≡ false) }
    ensures cause { IfOk result (λ l. l.cause ≡ None) }
{
    let calls = Vec::with_capacity(alloc, room)?;
    let call_items = Vec::with_capacity(alloc, room)?;
    Ok(CallList {
        calls: Many::from_vec(calls),
        call_items: Many::from_vec(call_items),
        misread: false,
        cause: None,
    })
}

/// Adds a call.
fn add_call(
    alloc: Global,
    scope: &Scope<'_>,
    owner: &Owner<'_, '_>,
    list: &mut CallList,
    call: Call,
) -> Result<(), OutOfMemory>
    requires scope { IsScope scope.now }
    requires sources { KnowsSources owner.now.names (sources_now owner.now) }
    ensures calls { OnOk result (list.new.calls ≡ list.old.calls ++ call_of call (seen_by scope.now owner.now call) ∷ []) }
    ensures items { OnOk result (list.new.call_items ≡ list.old.call_items ++ id_of (seen_by scope.now owner.now call) ∷ []) }
    ensures misread { OnOk result (list.new.misread ≡ (list.old.misread || is_misread call (seen_by scope.now owner.now call))) }
    ensures cause { OnOk result (list.new.cause ≡ option_or list.old.cause (call_cause call (seen_by scope.now owner.now call))) }
{
    let (looked, call) = beside(looked_at(alloc, scope, owner, &call), call)?;
    list.misread = list.misread || is_misread(&call, &looked);
    list.cause = list.cause.or(call_cause(&call, &looked));
    let added = list.call_items.push(item_id(&looked));
    let (_added, (call, looked)) = beside(added, (call, looked))?;
    list.calls.push(hosted(call, looked))?;
    Ok(())
}

/// The calls of an expression by the items that they look at.
#[tactic(auto, using(crate::proofs::CallLists::map_one, crate::proofs::CallLists::any_one, crate::proofs::CallLists::first_one))]
fn call_list(
    alloc: Global,
    scope: &Scope<'_>,
    owner: &Owner<'_, '_>,
    calls: Many<Call>,
) -> Result<CallList, OutOfMemory>
    requires scope { IsScope scope.now }
    requires sources { KnowsSources owner.now.names (sources_now owner.now) }
    ensures calls { IfOk result (λ l. l.calls ≡ map (λ c. call_of c (seen_by scope.now owner.now c)) calls) }
    ensures items { IfOk result (λ l. l.call_items ≡ map (λ c. id_of (seen_by scope.now owner.now c)) calls) }
    ensures misread { IfOk result (λ l. l.misread ≡ list_any (λ c. is_misread c (seen_by scope.now owner.now c)) calls) }
    ensures cause { IfOk result (λ l. l.cause ≡ first_cause (λ c. call_cause c (seen_by scope.now owner.now c)) calls) }
{
    let mut list = with_room(alloc, calls.len())?;
    for call in calls.into_vec() {
        add_call(alloc, scope, owner, &mut list, call)?;
    }
    Ok(list)
}

/// The calls of an expression by the items that they look at.
///
/// Refused are `BadExpression` at 0 where some call compares the numbers of its item with an argument that is no number, or
/// else, at the first call that it fits, `UnknownName` where no host or no item of the host has the name, and
/// `WrongValueType` where the item isn't of a type that the function takes.
#[tactic(auto, using(host_layout::proofs::Failing::refusal), unfolding(crate::specs::Expressions::by_items))]
fn right_calls(
    alloc: Global,
    scope: &Scope<'_>,
    owner: &Owner<'_, '_>,
    member: &Member<'_, '_>,
    calls: Many<Call>,
) -> Result<CallList, FlatError>
    requires scope { IsScope scope.now }
    requires sources { KnowsSources owner.now.names (sources_now owner.now) }
    ensures { (tree : Tree) → GivesAs (λ l. record { tree = tree; calls = l.calls; call_items = l.call_items }) result (by_items (seen_by scope.now owner.now) (member_path member.now) (tree, calls)) }
{
    let list = call_list(alloc, scope, owner, calls)?;
    if list.misread {
        drop(list);
        return Err(member.refused(alloc, Cause::BadExpression { at: 0 }));
    }
    if let Some(cause) = list.cause {
        drop(list);
        return Err(member.refused(alloc, cause));
    }
    Ok(list)
}

/// An expression by the items that its calls look at. Refused as [`right_calls`] says.
fn by_items(
    alloc: Global,
    scope: &Scope<'_>,
    owner: &Owner<'_, '_>,
    member: &Member<'_, '_>,
    parsed: Parsed,
) -> Result<Resolution, FlatError>
    requires scope { IsScope scope.now }
    requires sources { KnowsSources owner.now.names (sources_now owner.now) }
    ensures { GivesAs resolved_now result (by_items (seen_by scope.now owner.now) (member_path member.now) (parsed_now parsed)) }
{
    let Parsed { expr, calls } = parsed;
    let (list, expr) = beside(right_calls(alloc, scope, owner, member, calls), expr)?;
    Ok(Resolution {
        expr,
        calls: list.calls,
        call_items: list.call_items,
    })
}

/// What the text of a member means.
#[tactic(auto, unfolding(crate::specs::Expressions::resolved_at))]
fn resolved_at(
    alloc: Global,
    scope: &Scope<'_>,
    owner: &Owner<'_, '_>,
    member: &Member<'_, '_>,
    text: &Text,
) -> Result<Resolution, FlatError>
    requires scope { IsScope scope.now }
    requires sources { KnowsSources owner.now.names (sources_now owner.now) }
    ensures { GivesAs resolved_now result (resolved_at (seen_by scope.now owner.now) (member_path member.now) (expanded owner.now.macros text.now)) }
{
    let parsed = expression(alloc, member, text, &owner.macros)?;
    by_items(alloc, scope, owner, member, parsed)
}

/// The place so many places later. So many calls can't be kept that it has none.
fn later_place(place: u32, by: usize) -> Result<u32, OutOfMemory>
    ensures { IfOk result (λ later. later ≡ place + by) }
{
    if by <= u32::MAX as usize - place as usize {
        Ok(place + by as u32)
    } else {
        Err(OutOfMemory)
    }
}

/// An expression whose calls stand so many places later; the depth of the recursion is that of the expression.
fn later(alloc: Global, expr: &Expr, by: usize) -> Result<Expr, OutOfMemory>
    ensures { IfOk result (λ made. tree_of made ≡ later by (tree_of expr.now)) }
{
    match expr {
        Expr::Const(number) => Ok(Expr::Const(*number)),
        Expr::Call(place) => Ok(Expr::Call(later_place(*place, by)?)),
        Expr::Neg(operand) => Ok(Expr::Neg(Operand::new(
            alloc,
            later(alloc, operand.expr(), by)?,
        )?)),
        Expr::Not(operand) => Ok(Expr::Not(Operand::new(
            alloc,
            later(alloc, operand.expr(), by)?,
        )?)),
        Expr::Bin(op, left, right) => {
            let left = Operand::new(alloc, later(alloc, left.expr(), by)?)?;
            let right = Operand::new(alloc, later(alloc, right.expr(), by)?)?;
            Ok(Expr::Bin(*op, left, right))
        }
    }
}

/// The ids of the items of an expression, and behind them those of a recovery expression.
fn all_items(items: Many<u32>, recovery_items: Many<u32>) -> Result<Many<u32>, OutOfMemory>
    ensures { IfOk result (λ all. all ≡ items ++ recovery_items) }
{
    let mut all = items;
    all.append(recovery_items)?;
    Ok(all)
}

/// What an expression and a recovery expression mean together.
fn joined(alloc: Global, first: Resolution, recovery: Resolution) -> Result<Meaning, OutOfMemory>
    ensures { IfOk result (λ m. meant_now m ≡ joined (resolved_now first) (resolved_now recovery)) }
{
    let moved = later(alloc, &recovery.expr, first.calls.len());
    let (recovery_expr, (first, recovery)) = beside(moved, (first, recovery))?;
    let held = (first.expr, recovery_expr, first.calls, recovery.calls);
    let (call_items, held) = beside(all_items(first.call_items, recovery.call_items), held)?;
    let (expr, recovery_expr, calls, recovery_calls) = held;
    Ok(Meaning {
        expr,
        recovery_expr: Some(recovery_expr),
        calls,
        recovery_calls,
        call_items,
    })
}

/// What an expression without a recovery expression means.
fn alone(alloc: Global, first: Resolution) -> Meaning
    ensures { meant_now result ≡ alone (resolved_now first) }
{
    Meaning {
        expr: first.expr,
        recovery_expr: None,
        calls: first.calls,
        recovery_calls: Many::new(alloc),
        call_items: first.call_items,
    }
}

/// What the expressions of a trigger mean whose expression is resolved. The recovery expression is read in its mode alone.
fn with_recovery(
    alloc: Global,
    scope: &Scope<'_>,
    owner: &Owner<'_, '_>,
    source: &Source<'_>,
    index: usize,
    raw: &RawTrigger,
    first: Resolution,
) -> Result<Meaning, FlatError>
    requires scope { IsScope scope.now }
    requires sources { KnowsSources owner.now.names (sources_now owner.now) }
    ensures { GivesAs meant_now result (with_recovery raw.now.recovery (resolved_at (seen_by scope.now owner.now) ((placed_trigger source.now index raw.now).path ++ codes "/recovery_expression") (expanded owner.now.macros raw.now.recovery_expression)) (resolved_now first)) }
{
    match raw.recovery {
        RecoveryMode::RecoveryExpression => {
            let member = Member {
                source,
                index,
                name: "/recovery_expression",
            };
            let recovery = resolved_at(alloc, scope, owner, &member, &raw.recovery_expression);
            let (recovery, first) = beside(recovery, first)?;
            Ok(joined(alloc, first, recovery)?)
        }
        RecoveryMode::Expression | RecoveryMode::Nothing => Ok(alone(alloc, first)),
    }
}

/// What the expression of a trigger means, and the recovery expression in its mode.
fn both_meant(
    alloc: Global,
    scope: &Scope<'_>,
    owner: &Owner<'_, '_>,
    source: &Source<'_>,
    index: usize,
    raw: &RawTrigger,
) -> Result<Meaning, FlatError>
    requires scope { IsScope scope.now }
    requires sources { KnowsSources owner.now.names (sources_now owner.now) }
    ensures { GivesAs meant_now result (meant_by (seen_by scope.now owner.now) owner.now.macros (placed_trigger source.now index raw.now)) }
{
    let member = Member {
        source,
        index,
        name: "/expression",
    };
    let first = resolved_at(alloc, scope, owner, &member, &raw.expression)?;
    with_recovery(alloc, scope, owner, source, index, raw, first)
}

/// What the expressions of a trigger of a source mean for a host.
///
/// Refused at the expression, or else at the recovery expression: `BadExpression` where it is none, at 0 where it looks at
/// no item or compares numbers with an argument that is none; `UnknownName` where a call names no host or no item of the
/// host, and `WrongValueType` where the item isn't of a type that the function takes.
pub(crate) fn meaning_of(
    alloc: Global,
    scope: &Scope<'_>,
    owner: &Owner<'_, '_>,
    source: &Source<'_>,
    index: usize,
    raw: &RawTrigger,
) -> Result<Meaning, FlatError>
    requires scope { IsScope scope.now }
    requires sources { KnowsSources owner.now.names (sources_now owner.now) }
    ensures { GivesAs meant_now result (expressions_of scope.now.raw.now scope.now.items.now.items (owner_now owner.now) owner.now.macros (placed_trigger source.now index raw.now)) }
{
    both_meant(alloc, scope, owner, source, index, raw)
}
