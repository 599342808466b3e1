//! Reading of expressions.

ghost use Rattle.std.specs.Prelude.{◌≡◌, ◌≤◌, ◌<◌, ℕ, List, length, get_or, true, false, IfOk, IfErr, Some, None};
ghost use Rattle.std.specs.List.{All};
ghost use Rattle.zbx_types.specs.Limits.{longest_expression};
ghost use Rattle.zbx_types.specs.Tree.{Tree};
ghost use Rattle.zbx_types.specs.Trees.{CallsBelow, tree_of};
ghost use Rattle.zbx_types.specs.declared.calls.Call.{Call};
ghost use Rattle.expr_parser.specs.Calls.{IsBoundedCall};
ghost use Rattle.expr_parser.specs.Fault.{IsFault};
ghost use Rattle.expr_parser.specs.Machine as machine;
ghost use Rattle.expr_parser.specs.Staying.{Leads, reach};
ghost use Rattle.expr_parser.specs.View.{state};
ghost use Rattle.expr_parser.specs.Grammar.{IsExpr, IsText, looks_at_item};
ghost use Rattle.expr_parser.specs.declared.reading.Onward.{Onward};
ghost use Rattle.expr_parser.specs.declared.reading.ParseError.TheVariants.{At};

use crate::keys::key_run;
use crate::moves::{finished, move_on};
use crate::states::{Base, MOST_CALLS, Mode, Moved, State};
use crate::staying::stay;
use std::alloc::Global;
use thiserror::Error;
use zbx_types::{Call, Expr, Many, OutOfMemory};

/// The most bytes of an expression.
const LONGEST: usize = zbx_types::LONGEST_EXPRESSION;

/// An expression, and the calls of functions in it.
#[derive(Drop)]
pub struct Parsed {
    /// The expression. [`Expr::Call`] names a call by its place in `calls`.
    pub expr: Expr,
    /// The calls in the order in which they stand in the text.
    pub calls: Many<Call>,
}

/// Why a text is no expression.
#[derive(Debug, Drop, Error)]
pub enum ParseError {
    /// The place, counted from 0, of the first byte where no expression goes on, or the length of the text where that
    /// comes first; 0 for an expression that calls no function of an item's history.
    #[error("no expression goes on at byte {0}")]
    At(u32),
    /// No memory was to be had.
    #[error("out of memory")]
    OutOfMemory,
}

/// Some call looks at an item.
fn looks(calls: &[Call]) -> bool
    ensures { result ≡ looks_at_item calls.now }
{
    for call in calls {
        if !call.fun.is_dated() {
            return true;
        }
    }
    false
}

/// How many calls a text may have, so that there is room for them from the first on.
fn call_room(text: &[u8]) -> usize {
    let opened = text.iter().filter(|byte| **byte == b'(').count();
    opened.min(MOST_CALLS)
}

/// The state before the first byte of a text.
fn started(alloc: Global, text: &[u8]) -> Result<State, OutOfMemory>
    ensures { IfOk result (λ made. state made ≡ machine.start) }
{
    let calls = Vec::with_capacity(alloc, call_room(text))?;
    Ok(State {
        mode: Mode::Begin,
        last: b'(',
        base: Base {
            open_ones: 0,
            stack: Vec::new(alloc),
            calls: Many::from_vec(calls),
        },
    })
}

/// The state before the first byte, in its place in memory.
fn begun(alloc: Global, text: &[u8]) -> Result<Box<State>, OutOfMemory>
    ensures { IfOk result (λ made. state made.value ≡ machine.start) }
{
    Box::new(alloc, started(alloc, text)?)
        .ok()
        .ok_or(OutOfMemory)
}

/// Goes on by one byte.
#[inline(always)]
fn go_on(alloc: Global, s: &mut State, byte: u8) -> Moved
    ensures { IfOk result (λ on. reach on (state s.new) ≡ machine.step false (state s.old) byte) }
{
    if let Some(on) = stay(alloc, s, byte)? {
        return Ok(on);
    }
    move_on(alloc, s, byte)
}

/// Takes bytes from the front of what is left, at most so many, and answers how many: none where no expression goes on
/// with the first.
#[inline(always)]
#[tactic(auto, using(crate::proofs::KeyRuns::none_after, crate::proofs::KeyRuns::one_on))]
fn advance(alloc: Global, s: &mut State, rest: &[u8], most: usize) -> Result<usize, OutOfMemory>
    requires more { 0 < length rest.now }
    requires room { 0 < most }
    ensures within { IfOk result (λ n. n ≤ length rest.now) }
    ensures few { IfOk result (λ n. n ≤ most) }
    ensures goes { IfOk result (λ n. 0 < n → Leads (state s.old) rest.now n (state s.new)) }
    ensures stops { IfOk result (λ n. n ≡ 0 → machine.step false (state s.old) (get_or rest.now 0 0) ≡ None) }
{
    let several = key_run(s, rest, most)?;
    if several > 0 {
        Ok(several)
    } else if go_on(alloc, s, rest[0])? {
        Ok(1)
    } else {
        Ok(0)
    }
}

/// A state behind some bytes more, and how many they are.
#[derive(Drop)]
struct Onward {
    state: Box<State>,
    taken: usize,
}

/// The state behind some bytes from the front of what is left, at most so many, or none where no expression goes on with the
/// first.
#[inline(always)]
fn behind_some(
    alloc: Global,
    s: Box<State>,
    rest: &[u8],
    most: usize,
) -> Result<Option<Onward>, OutOfMemory>
    requires more { 0 < length rest.now }
    requires room { 0 < most }
    ensures goes { IfOk result (λ r. (on : Onward) → r ≡ Some on → (on.taken ≤ length rest.now) × (on.taken ≤ most) × (0 < on.taken) × Leads (state s.value) rest.now on.taken (state on.state.value)) }
    ensures stops { IfOk result (λ r. r ≡ None → machine.step false (state s.value) (get_or rest.now 0 0) ≡ None) }
{
    let mut s = s;
    let taken = advance(alloc, &mut *s, rest, most)?;
    if taken == 0 {
        Ok(None)
    } else {
        Ok(Some(Onward { state: s, taken }))
    }
}

/// The answer where the text ends in a state, behind so many bytes.
fn answer(alloc: Global, s: Box<State>, count: u32) -> Result<Parsed, ParseError>
    ensures found { IfOk result (λ p. (machine.ends (state s.value) ≡ Some (tree_of p.expr, p.calls)) × (looks_at_item p.calls ≡ true)) }
    ensures dates { IfErr result (λ x. (at : ℕ) → x ≡ At at → (e : Tree) (ks : List Call) → machine.ends (state s.value) ≡ Some (e, ks) → (at ≡ 0) × (looks_at_item ks ≡ false)) }
    ensures none { IfErr result (λ x. (at : ℕ) → x ≡ At at → machine.ends (state s.value) ≡ None → at ≡ count) }
{
    match finished(alloc, Box::into_inner(s)) {
        Ok(Some(whole)) => {
            if looks(whole.calls.as_slice()) {
                Ok(Parsed {
                    expr: whole.expr,
                    calls: whole.calls,
                })
            } else {
                drop(whole);
                Err(ParseError::At(0))
            }
        }
        Ok(None) => Err(ParseError::At(count)),
        Err(OutOfMemory) => Err(ParseError::OutOfMemory),
    }
}

/// Reads an expression (the Zabbix 6.0 manual, "Trigger expression").
///
/// `Ok` is the expression that the text is by the grammar, with its calls in order: each place in the tree is below
/// their number. A number as an argument and the same text in quotes are one argument; a range, a shift and a text that
/// aren't written have their defaults: `#1`, or `#2` of `change`, 0 and empty. Each `#n` is from 1 to 10,000, each
/// period from 1 to 2,678,400 seconds (31 days), and each shift at most that long.
///
/// [`ParseError::At`] comes where the text is no expression, with the place of the first byte where none goes on or
/// that passes a limit (the length of the text, where that comes first), and with 0 where it is one that looks at no
/// item. [`ParseError::OutOfMemory`] comes for want of memory alone.
pub fn read(alloc: Global, text: &[u8]) -> Result<Parsed, ParseError>
    ensures found { IfOk result (λ p. IsExpr text.now (tree_of p.expr) p.calls × (length text.now ≤ longest_expression) × (looks_at_item p.calls ≡ true)) }
    ensures below { IfOk result (λ p. CallsBelow (length p.calls) (tree_of p.expr)) }
    ensures bounded { IfOk result (λ p. All IsBoundedCall p.calls) }
    ensures none { IfErr result (λ x. (at : ℕ) → x ≡ At at → (e : Tree) (ks : List Call) → IsExpr text.now e ks → length text.now ≤ longest_expression → looks_at_item ks ≡ false) }
    ensures dates { IfErr result (λ x. (at : ℕ) → x ≡ At at → (e : Tree) (ks : List Call) → IsExpr text.now e ks → length text.now ≤ longest_expression → at ≡ 0) }
    ensures place { IfErr result (λ x. (at : ℕ) → x ≡ At at → ((e : Tree) (ks : List Call) → IsExpr text.now e ks → length text.now ≤ longest_expression → ⊥) → IsFault IsText longest_expression text.now at) }
{
    let mut state = match begun(alloc, text) {
        Ok(begun) => begun,
        Err(OutOfMemory) => return Err(ParseError::OutOfMemory),
    };
    let mut count = 0;
    while count < text.len() {
        if count == LONGEST {
            return Err(ParseError::At(count as u32));
        }
        match behind_some(alloc, state, &text[count..], LONGEST - count) {
            Ok(Some(on)) => {
                count += on.taken;
                state = on.state;
            }
            Ok(None) => return Err(ParseError::At(count as u32)),
            Err(OutOfMemory) => return Err(ParseError::OutOfMemory),
        }
    }
    answer(alloc, state, count as u32)
}

/// No text is two expressions: a law of the grammar, which does nothing when it is called.
#[tactic(auto, using(crate::proofs::Complete::one))]
pub fn one_expression()
    ensures { (text : List ℕ) (e f : Tree) (ks js : List Call) → IsExpr text e ks → IsExpr text f js → (e ≡ f) × (ks ≡ js) }
{}
