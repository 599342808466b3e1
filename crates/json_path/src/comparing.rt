//! Conditions.

ghost use Rattle.std.specs.Prelude.{◌≡◌, option_map};
ghost use Rattle.json_text.specs.Trees.{json_of, members_of as tree_members_of};
ghost use Rattle.json_text.specs.Json.{member_list};
ghost use Rattle.json_path.specs.Comparing.{named_in, member_named, value_at, numbers_compare, known_compare};
ghost use Rattle.json_path.specs.Comparing.{words_compare, literal_compare, condition_holds};

use crate::path::{Comparison, Condition, Literal};
use json_text::{Member, Tree};
use std::convert::AsStr;
use zbx_types::{Fix, Text};

fn first_named<'t>(name: &Text, members: &'t [Member]) -> Option<&'t Tree>
    ensures { option_map (λ t. json_of t.now) result ≡ named_in name.now (member_list (tree_members_of members.now)) }
{
    for member in members {
        if member.name == *name {
            return Some(&member.value);
        }
    }
    None
}

/// The value of the first member with a name.
pub(crate) fn member_named<'t>(name: &Text, tree: &'t Tree) -> Option<&'t Tree>
    ensures { option_map (λ t. json_of t.now) result ≡ member_named name.now (json_of tree.now) }
{
    match tree {
        Tree::Object(members) => first_named(name, members.as_slice()),
        Tree::Null | Tree::Bool(_) | Tree::Number(_) | Tree::Words(_) | Tree::List(_) => None,
    }
}

/// The value behind some names, one inside the other.
fn value_at<'t>(names: &[Text], tree: &'t Tree) -> Option<&'t Tree>
    ensures { option_map (λ t. json_of t.now) result ≡ value_at names.now (json_of tree.now) }
{
    let mut value = tree;
    for name in names {
        value = member_named(name, value)?;
    }
    Some(value)
}

fn numbers_compare(op: Comparison, a: Fix, b: Fix) -> bool
    ensures { result ≡ numbers_compare op a b }
{
    match op {
        Comparison::Eq => a.raw() == b.raw(),
        Comparison::Ne => a.raw() != b.raw(),
        Comparison::Le => a.raw() <= b.raw(),
        Comparison::Ge => a.raw() >= b.raw(),
        Comparison::Lt => a.raw() < b.raw(),
        Comparison::Gt => a.raw() > b.raw(),
    }
}

fn known_compare(op: Comparison, a: Option<Fix>, b: Option<Fix>) -> bool
    ensures { result ≡ known_compare op a b }
{
    match (a, b) {
        (Some(a), Some(b)) => numbers_compare(op, a, b),
        _ => false,
    }
}

fn words_compare(op: Comparison, a: &Text, b: &Text) -> bool
    ensures { result ≡ words_compare op a.now b.now }
{
    match op {
        Comparison::Eq => *a == *b,
        Comparison::Ne => *a != *b,
        Comparison::Le | Comparison::Ge | Comparison::Lt | Comparison::Gt => false,
    }
}

fn literal_compare(op: Comparison, tree: &Tree, literal: &Literal) -> bool
    ensures { result ≡ literal_compare op (json_of tree.now) literal.now }
{
    match (tree, literal) {
        (Tree::Number(a), Literal::Number(b)) => {
            known_compare(op, Fix::read(a.as_bytes()), Fix::read(b.as_bytes()))
        }
        (Tree::Words(a), Literal::Words(b)) => words_compare(op, a, b),
        _ => false,
    }
}

/// A condition holds of a value.
#[tactic(auto, unfolding(crate::specs::Comparing::condition_holds))]
pub(crate) fn condition_holds(condition: &Condition, tree: &Tree) -> bool
    ensures { result ≡ condition_holds condition.now (json_of tree.now) }
{
    match value_at(condition.names.as_slice(), tree) {
        None => false,
        Some(value) => literal_compare(condition.op, value, &condition.literal),
    }
}
