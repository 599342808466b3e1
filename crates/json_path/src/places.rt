//! Paths, byte by byte.

ghost use Rattle.std.specs.Prelude.{◌≡◌, ◌++◌, ◌∷◌, [], ◌==◌, if◌then◌else◌, Some, None, IfOk};
ghost use Rattle.json_path.specs.Tokens.{spell};
ghost use Rattle.json_path.specs.Machine.{choose, state, segment, behind_segment, member_goes, member_ends};
ghost use Rattle.json_path.specs.Machine.{function_of, call_begins, behind_name, selector_goes, behind_points};
ghost use Rattle.json_path.specs.Machine.{step_from, step, path_of, named_path, ends, start};

use crate::brackets::{Chosen, InBrackets, chosen_on};
use crate::path::{Function, Path, Segment, Selector};
use crate::tokens::{Spelling, is_name, nothing, spelled, text_of};
use std::alloc::Global;
use zbx_types::{Bytes, Many, OutOfMemory, Text};

/// A place in a path.
#[derive(Drop)]
pub enum Place {
    /// No byte has come.
    Start,
    /// Behind `$` or a whole segment.
    Behind,
    /// Behind a point.
    Point,
    /// Behind two points.
    Points,
    /// In a name, behind two points where it is deep.
    Name(bool, Spelling),
    /// In brackets, behind two points where they are deep.
    Inside(bool, InBrackets),
    /// Behind the `(` of a function.
    Call(Function),
    /// Behind the `)` of a function.
    Called(Function),
}

/// What a front of a path has come to.
#[derive(Drop)]
pub struct State {
    /// The whole segments.
    pub done: Many<Segment>,
    /// The place behind them.
    pub place: Place,
}

/// Where a text begins.
pub fn started(alloc: Global) -> State
    ensures { result ≡ start }
{
    State {
        done: Many::new(alloc),
        place: Place::Start,
    }
}

fn with(done: Many<Segment>, deep: bool, selector: Selector) -> Result<Many<Segment>, OutOfMemory>
    ensures { IfOk result (λ made. made ≡ done ++ segment deep selector ∷ []) }
{
    let mut made = done;
    made.push(Segment { deep, selector })?;
    Ok(made)
}

fn with_name(
    alloc: Global,
    done: Many<Segment>,
    deep: bool,
    word: Text,
) -> Result<Many<Segment>, OutOfMemory>
    ensures { IfOk result (λ made. made ≡ done ++ segment deep (Selector.Names (word ∷ [])) ∷ []) }
{
    let mut names = Many::new(alloc);
    names.push(word)?;
    with(done, deep, Selector::Names(names))
}

fn segment_on(done: Many<Segment>, byte: u8) -> Option<State>
    ensures { result ≡ behind_segment done byte }
{
    if byte == b'.' {
        let place = Place::Point;
        Some(State { done, place })
    } else if byte == b'[' {
        let place = Place::Inside(false, InBrackets::Before);
        Some(State { done, place })
    } else {
        None
    }
}

fn name_on(
    done: Many<Segment>,
    deep: bool,
    spelling: Spelling,
    byte: u8,
) -> Result<Option<State>, OutOfMemory>
    ensures { IfOk result (λ now. now ≡ member_goes done deep (spell spelling byte)) }
{
    match spelled(spelling, byte)? {
        Some(spelling) => {
            let place = Place::Name(deep, spelling);
            Ok(Some(State { done, place }))
        }
        None => Ok(None),
    }
}

fn name_over(
    alloc: Global,
    done: Many<Segment>,
    deep: bool,
    byte: u8,
    word: Option<Text>,
) -> Result<Option<State>, OutOfMemory>
    ensures { IfOk result (λ now. now ≡ member_ends done deep byte word) }
{
    match word {
        Some(word) => Ok(segment_on(with_name(alloc, done, deep, word)?, byte)),
        None => Ok(None),
    }
}

fn function_named(name: &[u8]) -> Option<Function>
    ensures { result ≡ function_of name.now }
{
    if name == b"length".as_slice() {
        Some(Function::Length)
    } else if name == b"first".as_slice() {
        Some(Function::First)
    } else if name == b"min".as_slice() {
        Some(Function::Min)
    } else if name == b"max".as_slice() {
        Some(Function::Max)
    } else if name == b"sum".as_slice() {
        Some(Function::Sum)
    } else if name == b"avg".as_slice() {
        Some(Function::Avg)
    } else {
        None
    }
}

fn call(done: Many<Segment>, function: Option<Function>) -> Option<State>
    ensures { result ≡ call_begins done function }
{
    match function {
        Some(function) => {
            let place = Place::Call(function);
            Some(State { done, place })
        }
        None => None,
    }
}

fn name_behind(
    alloc: Global,
    done: Many<Segment>,
    deep: bool,
    bytes: &Bytes,
    byte: u8,
) -> Result<Option<State>, OutOfMemory>
    ensures { IfOk result (λ now. now ≡ behind_name done deep bytes.now byte) }
{
    if byte == b'(' {
        if deep {
            Ok(None)
        } else {
            Ok(call(done, function_named(bytes.as_slice())))
        }
    } else {
        let word = text_of(alloc, bytes)?;
        name_over(alloc, done, deep, byte, word)
    }
}

fn in_name(
    alloc: Global,
    done: Many<Segment>,
    deep: bool,
    spelling: Spelling,
    byte: u8,
) -> Result<Option<State>, OutOfMemory>
    ensures { IfOk result (λ now. now ≡ step_from done (Place.Name deep spelling) byte) }
{
    if is_name(byte) {
        name_on(done, deep, spelling, byte)
    } else {
        name_behind(alloc, done, deep, &spelling.bytes, byte)
    }
}

fn points(
    alloc: Global,
    done: Many<Segment>,
    deep: bool,
    byte: u8,
) -> Result<Option<State>, OutOfMemory>
    ensures { IfOk result (λ now. now ≡ behind_points done deep byte) }
{
    if byte == b'*' {
        let done = with(done, deep, Selector::All)?;
        let place = Place::Behind;
        Ok(Some(State { done, place }))
    } else if is_name(byte) {
        name_on(done, deep, nothing(alloc), byte)
    } else {
        Ok(None)
    }
}

fn one_point(alloc: Global, done: Many<Segment>, byte: u8) -> Result<Option<State>, OutOfMemory>
    ensures { IfOk result (λ now. now ≡ step_from done Place.Point byte) }
{
    if byte == b'.' {
        let place = Place::Points;
        Ok(Some(State { done, place }))
    } else {
        points(alloc, done, false, byte)
    }
}

fn two_points(alloc: Global, done: Many<Segment>, byte: u8) -> Result<Option<State>, OutOfMemory>
    ensures { IfOk result (λ now. now ≡ step_from done Place.Points byte) }
{
    if byte == b'[' {
        let place = Place::Inside(true, InBrackets::Before);
        Ok(Some(State { done, place }))
    } else {
        points(alloc, done, true, byte)
    }
}

fn inside(
    alloc: Global,
    done: Many<Segment>,
    deep: bool,
    within: InBrackets,
    byte: u8,
) -> Result<Option<State>, OutOfMemory>
    ensures { IfOk result (λ now. now ≡ selector_goes done deep (choose within byte)) }
{
    match chosen_on(alloc, within, byte)? {
        Chosen::Open(within) => {
            let place = Place::Inside(deep, within);
            Ok(Some(State { done, place }))
        }
        Chosen::Closed(selector) => {
            let done = with(done, deep, selector)?;
            let place = Place::Behind;
            Ok(Some(State { done, place }))
        }
        Chosen::Wrong => Ok(None),
    }
}

fn only(done: Many<Segment>, place: Place, wanted: u8, byte: u8) -> Option<State>
    ensures { result ≡ (if byte == wanted then Some (state done place) else None) }
{
    (byte == wanted).then_some(State { done, place })
}

/// The state behind one byte more, or none where no path goes on with it.
pub fn stepped(alloc: Global, now: State, byte: u8) -> Result<Option<State>, OutOfMemory>
    ensures { IfOk result (λ made. made ≡ step now byte) }
{
    let done = now.done;
    match now.place {
        Place::Start => Ok(only(done, Place::Behind, b'$', byte)),
        Place::Behind => Ok(segment_on(done, byte)),
        Place::Point => one_point(alloc, done, byte),
        Place::Points => two_points(alloc, done, byte),
        Place::Name(deep, spelling) => in_name(alloc, done, deep, spelling, byte),
        Place::Inside(deep, within) => inside(alloc, done, deep, within, byte),
        Place::Call(function) => Ok(only(done, Place::Called(function), b')', byte)),
        Place::Called(_) => Ok(None),
    }
}

fn named(
    alloc: Global,
    done: Many<Segment>,
    deep: bool,
    word: Option<Text>,
) -> Result<Option<Path>, OutOfMemory>
    ensures { IfOk result (λ made. made ≡ named_path done deep word) }
{
    match word {
        Some(word) => Ok(Some(Path {
            segments: with_name(alloc, done, deep, word)?,
            function: None,
        })),
        None => Ok(None),
    }
}

fn whole(segments: Many<Segment>, function: Option<Function>) -> Option<Path>
    ensures { result ≡ path_of segments function }
{
    Some(Path { segments, function })
}

/// The path of a text that ends in this state, if it may.
pub fn ended(alloc: Global, now: State) -> Result<Option<Path>, OutOfMemory>
    ensures { IfOk result (λ made. made ≡ ends now) }
{
    let done = now.done;
    match now.place {
        Place::Behind => Ok(whole(done, None)),
        Place::Name(deep, spelling) => named(alloc, done, deep, text_of(alloc, &spelling.bytes)?),
        Place::Called(function) => Ok(whole(done, Some(function))),
        other => {
            drop(other);
            Ok(None)
        }
    }
}
