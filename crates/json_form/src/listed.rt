//! Lists of a document.

ghost use Rattle.std.specs.Prelude.{◌≡◌, ◌++◌, ◌∷◌, [], ℕ, List, Result, IfOk, map};
ghost use Rattle.serde_json.specs.View.{view, items_view};
ghost use Rattle.json_form.specs.Faults.{Fault, Gives};
ghost use Rattle.json_form.specs.Places.{Place, place_of, spot, text, free_text};
ghost use Rattle.json_form.specs.Lists.{element_place, list_of, read_on, named_on, named_list, following_on, following_list};

use crate::fault::ReadError;
use crate::names::Names;
use crate::places::At;
use crate::pointers::element;
use serde_json::Value;
use std::alloc::Global;
use std::convert::AsStr;
use zbx_types::{Many, Text};

/// A reader of lists, each element for itself. It is named by a type that is only a name.
pub trait Element {
    /// What an element is read as.
    type Made: Drop;

    /// The reading of an element at its place.
    ghost reads: { Place → Result Self.Made Fault };

    /// Reads the element that the value at this pointer is, or refuses it.
    fn read(alloc: Global, path: &str, value: &Value) -> Result<Self::Made, ReadError>
        ensures { Gives result (reads (spot path.now (view value.now))) };
}

/// The reader of lists of texts, and of lists of distinct texts, each of which is its own name.
pub struct Texts;

impl Element for Texts {
    type Made = Text;

    ghost reads = { text };

    fn read(alloc: Global, path: &str, value: &Value) -> Result<Text, ReadError> {
        At::here(path, value).text(alloc)
    }
}

/// A reader of lists whose elements have distinct names. It is named by a type that is only a name.
pub trait Named {
    /// What an element is read as.
    type Made: Drop;

    /// The name of an element.
    ghost name: { Self.Made → List ℕ };

    /// The reading of an element at its place, where these names are taken.
    ghost reads: { List (List ℕ) → Place → Result Self.Made Fault };

    /// Reads the element that the value at this pointer is, or refuses it. Its name is taken from then on.
    fn read(
        alloc: Global,
        taken: &mut Names,
        path: &str,
        value: &Value,
    ) -> Result<Self::Made, ReadError>
        ensures gives { Gives result (reads taken.old (spot path.now (view value.now))) }
        ensures taken { IfOk result (λ one. taken.new ≡ taken.old ++ name one ∷ []) };
}

impl Named for Texts {
    type Made = Text;

    ghost name = { λ text. text };

    ghost reads = { free_text };

    #[tactic(auto, unfolding(crate::specs::Places::free_text))]
    fn read(
        alloc: Global,
        taken: &mut Names,
        path: &str,
        value: &Value,
    ) -> Result<Text, ReadError> {
        let at = At::here(path, value);
        let text = at.text(alloc)?;
        at.free(alloc, taken, text)
    }
}

/// A reader of lists whose elements are read with what those before them left. It is named by a type that is only a
/// name.
pub trait Following {
    /// What an element is read as.
    type Made: Drop;

    /// What the elements before leave.
    type Past;

    /// What an element leaves.
    ghost after: { Self.Past → Self.Made → Self.Past };

    /// The reading of an element at its place, with what those before it left.
    ghost reads: { Self.Past → Place → Result Self.Made Fault };

    /// Reads the element that the value at this pointer is, or refuses it. `past` is then what it leaves.
    fn read(
        alloc: Global,
        past: &mut Self::Past,
        path: &str,
        value: &Value,
    ) -> Result<Self::Made, ReadError>
        ensures gives { Gives result (reads past.old (spot path.now (view value.now))) }
        ensures past { IfOk result (λ one. past.new ≡ after past.old one) };
}

/// The element that stands at this index of the list at this pointer.
fn read_one<R: Element>(
    alloc: Global,
    path: &str,
    index: usize,
    value: &Value,
) -> Result<R::Made, ReadError>
    ensures { Gives result (R.reads (element_place path.now index (view value.now))) }
{
    let pointer = element(alloc, path, index)?;
    R::read(alloc, pointer.as_str(), value)
}

fn read_all<R: Element>(
    alloc: Global,
    path: &str,
    values: &Vec<Value>,
) -> Result<Many<R::Made>, ReadError>
    ensures { Gives result (read_on R.reads path.now [] (items_view values.now.items)) }
{
    let mut found = Vec::new(alloc);
    for value in values {
        let one = read_one::<R>(alloc, path, found.len(), value)?;
        found.push(one)?;
    }
    Ok(Many::from_vec(found))
}

/// The elements of the list at the place, in order; none where nothing stands. BadMember where something else does, and
/// else the first fault of an element.
#[tactic(auto, unfolding(crate::specs::Lists::list_of))]
pub fn list<R: Element>(alloc: Global, at: &At<'_, '_>) -> Result<Many<R::Made>, ReadError>
    ensures { Gives result (list_of R.reads (place_of at.now)) }
{
    let Some(values) = at.elements(alloc)? else {
        return Ok(Many::new(alloc));
    };
    let path = at.pointer(alloc)?;
    read_all::<R>(alloc, path.as_str(), values)
}

fn name_one<R: Named>(
    alloc: Global,
    taken: &mut Names,
    path: &str,
    index: usize,
    value: &Value,
) -> Result<R::Made, ReadError>
    ensures gives { Gives result (R.reads taken.old (element_place path.now index (view value.now))) }
    ensures taken { IfOk result (λ one. taken.new ≡ taken.old ++ R.name one ∷ []) }
{
    let pointer = element(alloc, path, index)?;
    R::read(alloc, taken, pointer.as_str(), value)
}

fn name_all<R: Named>(
    alloc: Global,
    taken: &mut Names,
    path: &str,
    values: &Vec<Value>,
) -> Result<Many<R::Made>, ReadError>
    ensures gives { Gives result (named_on R.name R.reads path.now taken.old [] (items_view values.now.items)) }
    ensures taken { IfOk result (λ all. taken.new ≡ taken.old ++ map R.name all) }
{
    let mut found = Vec::new(alloc);
    for value in values {
        let one = name_one::<R>(alloc, taken, path, found.len(), value)?;
        found.push(one)?;
    }
    Ok(Many::from_vec(found))
}

/// The elements of the list at the place, as `list` gives them, each read with the names that are taken: those that were
/// and those of the elements before it. `taken` then has the names of all; nothing is said of it after an error.
#[tactic(auto, unfolding(crate::specs::Lists::named_list))]
pub fn distinct_beside<R: Named>(
    alloc: Global,
    taken: &mut Names,
    at: &At<'_, '_>,
) -> Result<Many<R::Made>, ReadError>
    ensures gives { Gives result (named_list R.name R.reads taken.old (place_of at.now)) }
    ensures taken { IfOk result (λ all. taken.new ≡ taken.old ++ map R.name all) }
{
    let Some(values) = at.elements(alloc)? else {
        return Ok(Many::new(alloc));
    };
    let path = at.pointer(alloc)?;
    name_all::<R>(alloc, taken, path.as_str(), values)
}

/// The elements of the list at the place, as `list` gives them, each read with the names of those before it.
pub fn distinct<R: Named>(alloc: Global, at: &At<'_, '_>) -> Result<Many<R::Made>, ReadError>
    ensures { Gives result (named_list R.name R.reads [] (place_of at.now)) }
{
    let mut taken = Names::new(alloc);
    distinct_beside::<R>(alloc, &mut taken, at)
}

fn follow_one<R: Following>(
    alloc: Global,
    past: &mut R::Past,
    path: &str,
    index: usize,
    value: &Value,
) -> Result<R::Made, ReadError>
    ensures gives { Gives result (R.reads past.old (element_place path.now index (view value.now))) }
    ensures past { IfOk result (λ one. past.new ≡ R.after past.old one) }
{
    let pointer = element(alloc, path, index)?;
    R::read(alloc, past, pointer.as_str(), value)
}

fn follow_all<R: Following>(
    alloc: Global,
    past: &mut R::Past,
    path: &str,
    values: &Vec<Value>,
) -> Result<Many<R::Made>, ReadError>
    ensures gives { Gives result (following_on R.after R.reads path.now past.old [] (items_view values.now.items)) }
{
    let mut found = Vec::new(alloc);
    for value in values {
        let one = follow_one::<R>(alloc, past, path, found.len(), value)?;
        found.push(one)?;
    }
    Ok(Many::from_vec(found))
}

/// The elements of the list at the place, as `list` gives them, each read with what those before it left, the first
/// with `past`. Nothing is said of `past` after the call.
#[tactic(auto, unfolding(crate::specs::Lists::following_list))]
pub fn sequence<R: Following>(
    alloc: Global,
    past: &mut R::Past,
    at: &At<'_, '_>,
) -> Result<Many<R::Made>, ReadError>
    ensures { Gives result (following_list R.after R.reads past.old (place_of at.now)) }
{
    let Some(values) = at.elements(alloc)? else {
        return Ok(Many::new(alloc));
    };
    let path = at.pointer(alloc)?;
    follow_all::<R>(alloc, past, path.as_str(), values)
}
