//! What a path gives of a value.

ghost use Rattle.std.specs.Prelude.{◌≡◌, ◌<◌, IfOk, Ok, Err, pos, int_div, option_and_then};
ghost use Rattle.zbx_types.specs.Arithmetic.{in_range};
ghost use Rattle.zbx_types.specs.Numbers.{least, greatest};
ghost use Rattle.zbx_types.specs.Written.{written};
ghost use Rattle.json_path.specs.declared.results.SelectError.TheVariants.{OutOfMemory};
ghost use Rattle.std.specs.Fmt.{decimal};
ghost use Rattle.json_text.specs.Json.{list};
ghost use Rattle.json_text.specs.Trees.{json_of};
ghost use Rattle.json_text.specs.Written.{json_written};
ghost use Rattle.json_path.specs.Results.{Gives, takes_one, is_definite_segment, is_definite, bare_text, items_from};
ghost use Rattle.json_path.specs.Results.{plain_result, number_result, first_of_numbers, mean, of_numbers, numbers_of};
ghost use Rattle.json_path.specs.Results.{sum_result, first_result, function_result, array_items, function_of_array};
ghost use Rattle.json_path.specs.Results.{called_result, result_of, select_of};
ghost use Rattle.json_path.specs.Seen.{seen};

use crate::contents::add_items;
use crate::path::{Function, Path, Segment, Selector};
use crate::selecting::selected;
use crate::sums::numbers_of;
use json_text::{Tree, put_comma, write};
use std::alloc::Global;
use std::convert::AsStr;
use thiserror::Error;
use zbx_types::{Bytes, Fix, OutOfMemory, Text, greatest, least, total};

/// Why a path gave nothing of a value.
#[derive(Clone, Copy, Debug, PartialEq, Eq, Error)]
pub enum SelectError {
    /// Nothing is selected, or a function has nothing to work on.
    #[error("no match")]
    NoMatch,
    /// A function of numbers works on a value that is no number, or its result is above 10^24 without its sign.
    #[error("no number")]
    NotNumber,
    /// No memory was to be had.
    #[error("out of memory")]
    OutOfMemory,
}

impl From<OutOfMemory> for SelectError {
    ghost from_gives = { λ _ e. e ≡ OutOfMemory };

    fn from(_refused: OutOfMemory) -> SelectError {
        SelectError::OutOfMemory
    }
}

fn is_one(selector: &Selector) -> bool
    ensures { result ≡ takes_one selector.now }
{
    match selector {
        Selector::Names(names) => names.len() == 1,
        Selector::Indexes(places) => places.len() == 1,
        Selector::Slice { .. } | Selector::All | Selector::Where(_) => false,
    }
}

fn is_definite_one(segment: &Segment) -> bool
    ensures { result ≡ is_definite_segment segment.now }
{
    if segment.deep {
        false
    } else {
        is_one(&segment.selector)
    }
}

fn is_definite(segments: &[Segment]) -> bool
    ensures { result ≡ is_definite segments.now }
{
    segments.iter().all(|segment| is_definite_one(segment))
}

fn compact(alloc: Global, tree: &Tree) -> Result<Bytes, OutOfMemory>
    ensures { IfOk result (λ made. made ≡ json_written (json_of tree.now)) }
{
    let mut out = Bytes::new(alloc);
    write(tree, &mut out)?;
    Ok(out)
}

/// A value as a definite path gives it.
fn bare(alloc: Global, tree: &Tree) -> Result<Bytes, OutOfMemory>
    ensures { IfOk result (λ made. made ≡ bare_text (json_of tree.now)) }
{
    match tree {
        Tree::Words(text) => Bytes::of(alloc, text.as_bytes()),
        Tree::Null | Tree::Bool(_) | Tree::Number(_) | Tree::List(_) | Tree::Object(_) => {
            compact(alloc, tree)
        }
    }
}

/// The array of some values.
fn array(alloc: Global, values: &[&Tree]) -> Result<Bytes, OutOfMemory>
    ensures { IfOk result (λ made. made ≡ json_written (list (items_from (seen values.now)))) }
{
    let mut out = Bytes::of(alloc, b"[")?;
    let mut first = true;
    for value in values {
        put_comma(&mut out, first)?;
        write(value, &mut out)?;
        first = false;
    }
    out.extend(b"]")?;
    Ok(out)
}

/// What a path without a function gives of the values that it selects.
fn plain(alloc: Global, definite: bool, values: &[&Tree]) -> Result<Bytes, SelectError>
    ensures { Gives result (plain_result definite (seen values.now)) }
{
    match values.split_first() {
        None => Err(SelectError::NoMatch),
        Some((first, _)) => {
            if definite {
                Ok(bare(alloc, first)?)
            } else {
                Ok(array(alloc, values)?)
            }
        }
    }
}

/// The text of a number.
fn fixed(alloc: Global, number: Option<Fix>) -> Result<Bytes, SelectError>
    ensures { Gives result (number_result number) }
{
    match number {
        None => Err(SelectError::NotNumber),
        Some(number) => Ok(number_text(alloc, number)?),
    }
}

fn number_text(alloc: Global, number: Fix) -> Result<Bytes, OutOfMemory>
    ensures { IfOk result (λ made. made ≡ written number) }
{
    let mut text = Text::new(alloc);
    number.write(&mut text)?;
    Bytes::of(alloc, text.as_bytes())
}

fn least_of(alloc: Global, numbers: &[Fix]) -> Result<Bytes, SelectError>
    ensures { Gives result (first_of_numbers least numbers.now) }
{
    match numbers.split_first() {
        None => Err(SelectError::NoMatch),
        Some((first, more)) => fixed(alloc, Some(least(*first, more))),
    }
}

fn greatest_of(alloc: Global, numbers: &[Fix]) -> Result<Bytes, SelectError>
    ensures { Gives result (first_of_numbers greatest numbers.now) }
{
    match numbers.split_first() {
        None => Err(SelectError::NoMatch),
        Some((first, more)) => fixed(alloc, Some(greatest(*first, more))),
    }
}

#[tactic(auto, unfolding(zbx_types::specs::Arithmetic::in_range))]
fn in_range(raw: i128) -> Option<Fix>
    ensures { result ≡ in_range raw }
{
    Fix::of_raw(raw)
}

fn sum_of(alloc: Global, numbers: &[Fix]) -> Result<Bytes, SelectError>
    ensures { Gives result (sum_result numbers.now) }
{
    let sum = total(numbers)?;
    fixed(alloc, in_range(sum))
}

fn divided(sum: Option<Fix>, count: usize) -> Option<Fix>
    requires { 0 < count }
    ensures { result ≡ option_and_then (λ sum. in_range (int_div sum (pos count))) sum }
{
    match sum {
        None => None,
        Some(sum) => in_range(sum.raw() / count as i128),
    }
}

fn mean_of(alloc: Global, numbers: &[Fix]) -> Result<Bytes, SelectError>
    ensures { Gives result (mean numbers.now) }
{
    if numbers.is_empty() {
        return Err(SelectError::NoMatch);
    }
    let sum = total(numbers)?;
    fixed(alloc, divided(in_range(sum), numbers.len()))
}

fn count_text(alloc: Global, count: usize) -> Result<Bytes, OutOfMemory>
    ensures { IfOk result (λ made. made ≡ decimal count) }
{
    let text = count.to_string(alloc)?;
    Bytes::of(alloc, text.as_bytes())
}

fn first_of(alloc: Global, values: &[&Tree]) -> Result<Bytes, SelectError>
    ensures { Gives result (first_result (seen values.now)) }
{
    match values.split_first() {
        None => Err(SelectError::NoMatch),
        Some((first, _)) => Ok(bare(alloc, first)?),
    }
}

/// The least of the numbers that values are.
fn least_value(alloc: Global, values: &[&Tree]) -> Result<Bytes, SelectError>
    ensures { Gives result (of_numbers (first_of_numbers least) (numbers_of (seen values.now))) }
{
    match numbers_of(alloc, values)? {
        None => Err(SelectError::NotNumber),
        Some(numbers) => least_of(alloc, numbers.as_slice()),
    }
}

/// The greatest of them.
fn greatest_value(alloc: Global, values: &[&Tree]) -> Result<Bytes, SelectError>
    ensures { Gives result (of_numbers (first_of_numbers greatest) (numbers_of (seen values.now))) }
{
    match numbers_of(alloc, values)? {
        None => Err(SelectError::NotNumber),
        Some(numbers) => greatest_of(alloc, numbers.as_slice()),
    }
}

/// Their sum.
fn sum_value(alloc: Global, values: &[&Tree]) -> Result<Bytes, SelectError>
    ensures { Gives result (of_numbers sum_result (numbers_of (seen values.now))) }
{
    match numbers_of(alloc, values)? {
        None => Err(SelectError::NotNumber),
        Some(numbers) => sum_of(alloc, numbers.as_slice()),
    }
}

/// Their sum divided by how many there are.
fn mean_value(alloc: Global, values: &[&Tree]) -> Result<Bytes, SelectError>
    ensures { Gives result (of_numbers mean (numbers_of (seen values.now))) }
{
    match numbers_of(alloc, values)? {
        None => Err(SelectError::NotNumber),
        Some(numbers) => mean_of(alloc, numbers.as_slice()),
    }
}

/// What a function makes of values.
#[tactic(auto, unfolding(crate::specs::Results::function_result))]
fn function_of(alloc: Global, function: Function, values: &[&Tree]) -> Result<Bytes, SelectError>
    ensures { Gives result (function_result function (seen values.now)) }
{
    match function {
        Function::Length => Ok(count_text(alloc, values.len())?),
        Function::First => first_of(alloc, values),
        Function::Min => least_value(alloc, values),
        Function::Max => greatest_value(alloc, values),
        Function::Sum => sum_value(alloc, values),
        Function::Avg => mean_value(alloc, values),
    }
}

/// What a function makes of the elements of an array.
fn of_array(alloc: Global, function: Function, tree: &Tree) -> Result<Bytes, SelectError>
    ensures { Gives result (function_of_array function (array_items (json_of tree.now))) }
{
    match tree {
        Tree::List(items) => {
            let mut values = Vec::new(alloc);
            add_items(items.as_slice(), &mut values)?;
            function_of(alloc, function, values.as_slice())
        }
        Tree::Null | Tree::Bool(_) | Tree::Number(_) | Tree::Words(_) | Tree::Object(_) => {
            Err(SelectError::NoMatch)
        }
    }
}

/// What a path with a function gives of the values that it selects.
fn called(
    alloc: Global,
    function: Function,
    definite: bool,
    values: &[&Tree],
) -> Result<Bytes, SelectError>
    ensures { Gives result (called_result function definite (seen values.now)) }
{
    match values.split_first() {
        None => Err(SelectError::NoMatch),
        Some((first, _)) => {
            if definite {
                of_array(alloc, function, first)
            } else {
                function_of(alloc, function, values)
            }
        }
    }
}

fn given(
    alloc: Global,
    function: Option<Function>,
    definite: bool,
    values: &[&Tree],
) -> Result<Bytes, SelectError>
    ensures { Gives result (result_of function definite (seen values.now)) }
{
    match function {
        None => plain(alloc, definite, values),
        Some(function) => called(alloc, function, definite, values),
    }
}

#[tactic(auto, unfolding(crate::specs::Results::select_of))]
fn selection(alloc: Global, tree: &Tree, path: &Path) -> Result<Bytes, SelectError>
    ensures { Gives result (select_of (json_of tree.now) path.now) }
{
    let segments = path.segments.as_slice();
    let values = selected(alloc, segments, tree)?;
    given(
        alloc,
        path.function,
        is_definite(segments),
        values.as_slice(),
    )
}

/// What a path gives of a value (the Zabbix 6.0 manual, "JSONPath functionality").
///
/// A path is definite where each segment is one name or one place, without `..`. A definite path gives the compact text
/// of the value that it selects, a text without quotes; another one gives the compact array of its values. Without any
/// value it is [`SelectError::NoMatch`], with a function too.
///
/// A function works on the elements of the array that a definite path selects ([`SelectError::NoMatch`] where it is no
/// array), or on the values of another path. `length` gives their number, `first` the first one as a definite path
/// gives it. `min`, `max`, `sum` and `avg` take numbers and texts that are number texts; where one isn't, or a result
/// is above 10^24 without its sign, it is [`SelectError::NotNumber`]. Of no elements `length` and `sum` are 0, and the
/// others [`SelectError::NoMatch`]. `avg` is the sum divided by the number, cut towards zero at six decimals (this
/// project's own).
///
/// [`SelectError::OutOfMemory`] comes where there is no room, and for sums of more than 10^8 numbers.
pub fn select(alloc: Global, tree: &Tree, path: &Path) -> Result<Bytes, SelectError>
    ensures value { IfOk result (λ made. select_of (json_of tree.now) path.now ≡ Ok made) }
    ensures no_match { result ≡ Err SelectError.NoMatch → select_of (json_of tree.now) path.now ≡ Err SelectError.NoMatch }
    ensures not_number { result ≡ Err SelectError.NotNumber → select_of (json_of tree.now) path.now ≡ Err SelectError.NotNumber }
{
    selection(alloc, tree, path)
}
