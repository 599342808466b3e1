//! Triggers of the configuration.

use crate::calls::Call;
use crate::entries::Tag;
use crate::expr::Expr;
use crate::many::Many;
use crate::text::Text;

/// A trigger: a host's expression that tells a problem (the Zabbix 6.0 manual, "Triggers").
#[derive(Drop)]
pub struct Trigger {
    /// Its host's id.
    pub host: u32,
    /// Its name as written in the document, before macros. No other trigger of the host has it.
    pub name: Text,
    /// The name with user macros expanded, of which names of events are made.
    pub title: Text,
    /// The problem expression: where it is true there is a problem.
    pub expr: Expr,
    /// How its problems close.
    pub recovery: RecoveryMode,
    /// The recovery expression, in the mode that has one.
    pub recovery_expr: Option<Expr>,
    /// The history and time functions that its expressions call; [`Expr::Call`] names them by place.
    pub calls: Many<Call>,
    /// For each of the calls the id of its item, or 0 for one that has none.
    pub call_items: Many<u32>,
    /// Whether it makes a problem at each value at which it is true ("PROBLEM event generation mode": multiple).
    pub multiple: bool,
    /// The tag whose values must match for one problem to close ("OK event closes": all problems if tag values match), or
    /// empty where all close.
    pub close_tag: Text,
    /// Its severity, from 0 (Not classified) to 5 (Disaster).
    pub severity: u8,
    /// The tags that its problems get, macros of events unresolved.
    pub tags: Many<Tag>,
    /// The ids of the triggers that it depends on ("Trigger dependencies").
    pub depends: Many<u32>,
    /// Whether it is evaluated.
    pub enabled: bool,
    /// The length of the longest chain of triggers that it depends on: 0 where it depends on none.
    pub depth: u32,
}

/// How the problems of a trigger close (the Zabbix 6.0 manual, "Configuring a trigger", OK event generation).
#[derive(Clone, Copy, Debug, PartialEq, Eq)]
pub enum RecoveryMode {
    /// Where the problem expression is false.
    Expression,
    /// Where the problem expression is false and the recovery expression true.
    RecoveryExpression,
    /// Not by the trigger itself.
    Nothing,
}
