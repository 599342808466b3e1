//! The cells that hold items' values, and their windows.

ghost use Rattle.std.specs.Prelude.{◌≡◌, IfOk};
ghost use Rattle.value_cache.specs.Beside.{IsSeenIn};
ghost use Rattle.value_cache.specs.Cells.{IsIn};
ghost use Rattle.value_cache.specs.Tokens.{AreOf, IsOf};

use crate::moments::moment_of;
use std::alloc::Global;
use std::convert::AsStr;
use std::marker::Model;
use value_cache::{Cache, ItemCell, Keep, Token, Values, Window};
use zbx_types::{Held, Many, Moment, OutOfMemory, Range, Stored, Text};

/// The two parts of an input between which a character stands, the second empty where none does.
fn both(input: &str, between: char) -> (&str, &str) {
    input.split_once(between).unwrap_or((input, ""))
}

/// What a cell is to keep, as a count and a period.
fn keep_of(text: &str) -> Keep {
    let (count, period) = both(text, ',');
    Keep {
        count: count.parse().unwrap_or(0),
        period: period.parse().unwrap_or(0),
    }
}

/// A range, as `#1` or as seconds.
fn range_of(text: &str) -> Range {
    match text.strip_prefix('#') {
        Some(count) => Range::Count(count.parse().unwrap_or(0)),
        None => Range::Period(text.parse().unwrap_or(0)),
    }
}

/// A value with a number and a time.
fn value(alloc: Global, number: u64, time: Moment) -> Result<Stored, OutOfMemory> {
    let text = Text::of(alloc, "v")?;
    Ok(Stored {
        time,
        number,
        value: Held::Words(text),
    })
}

/// A value, as its number and its time behind `@`.
fn value_of(alloc: Global, text: &str) -> Result<Stored, OutOfMemory> {
    let (number, time) = both(text, '@');
    value(alloc, number.parse().unwrap_or(0), moment_of(time))
}

/// A cell over a cache of its own.
#[derive(Drop)]
struct Shelf {
    cache: Cache,
    cell: ItemCell,
}

impl Model for Shelf {
    ghost use Rattle.value_cache.specs.Cells.{CellView, IsIn};
    ghost use Rattle.value_cache.specs.Tokens.{CacheId};

    ghost Value = { CacheId × CellView };

    ghost view = { λ s. (s.cache, s.cell) };

    ghost invariant = { λ s. IsIn s.cache s.cell };
}

/// An empty cell, which is to keep this.
fn empty(alloc: Global, keep: Keep) -> Result<Shelf, OutOfMemory> {
    Ok(Shelf {
        cache: Cache::new(alloc)?,
        cell: ItemCell::new(alloc, keep),
    })
}

/// Inserts a value at a moment.
fn put(shelf: &mut Shelf, stored: Stored, now: Moment) -> Result<(), OutOfMemory>
    ensures { shelf.new.0 ≡ shelf.old.0 }
{
    match shelf.cell.insert(&shelf.cache, stored, now) {
        Ok(()) => Ok(()),
        Err(refused) => {
            drop(refused);
            Err(OutOfMemory)
        }
    }
}

/// Inserts a value that a text tells, at this moment or at the one behind `/`.
fn put_text(alloc: Global, shelf: &mut Shelf, text: &str, now: Moment) -> Result<(), OutOfMemory>
    ensures { shelf.new.0 ≡ shelf.old.0 }
{
    let (text, at) = both(text, '/');
    let now = if at.is_empty() { now } else { moment_of(at) };
    put(shelf, value_of(alloc, text)?, now)
}

/// A cell of a text: what it keeps, the values between bars that were inserted, and the moment of that.
fn cell_of(alloc: Global, text: &str) -> Result<Shelf, OutOfMemory> {
    let (keep, rest) = both(text, ' ');
    let (values, now) = both(rest, ' ');
    let mut shelf = empty(alloc, keep_of(keep))?;
    for value in values.split('|') {
        put_text(alloc, &mut shelf, value, moment_of(now))?;
    }
    Ok(shelf)
}

/// The numbers of values, with blanks between.
fn numbers(alloc: Global, values: &[Stored]) -> Result<String, OutOfMemory> {
    let mut out = String::new(alloc);
    for stored in values {
        if !out.is_empty() {
            out.push(' ')?;
        }
        let number = format!(in alloc; "{}", stored.number)?;
        out.push_str(number.as_str())?;
    }
    Ok(out)
}

/// The numbers of the values that tokens show.
fn shown(alloc: Global, cache: &Cache, tokens: &[Token]) -> Result<String, OutOfMemory>
    requires { AreOf cache.now tokens.now }
{
    let values = cache.copies(alloc, tokens)?;
    numbers(alloc, values.as_slice())
}

/// A window of a cell: the cell, then its range, its shift and its moment.
fn window(alloc: Global, input: &str) -> Result<String, OutOfMemory> {
    let (cell, rest) = both(input, ';');
    let (range, rest) = both(rest, ' ');
    let (shift, now) = both(rest, ' ');
    let shelf = cell_of(alloc, cell)?;
    let shift = shift.parse().unwrap_or(0);
    let seen = shelf.cell.window(alloc, &shelf.cache, range_of(range), shift, moment_of(now));
    drop(shelf);
    numbers(alloc, seen?.as_slice())
}

/// What a cell keeps: how many values, and their numbers.
fn kept_in(alloc: Global, shelf: &Shelf) -> Result<String, OutOfMemory> {
    let told = shown(alloc, &shelf.cache, shelf.cell.tokens())?;
    Ok(format!(in alloc; "{}: {}", shelf.cell.held(), told.as_str())?)
}

/// The same of the cell of a text.
fn kept(alloc: Global, input: &str) -> Result<String, OutOfMemory> {
    let shelf = cell_of(alloc, input)?;
    let made = kept_in(alloc, &shelf);
    drop(shelf);
    made
}

/// How many of the values at these places there are.
fn count_there(values: &Values<'_>) -> u64 {
    let mut count: u64 = 0;
    for place in 0..values.len() {
        if values.get(place).is_some() {
            count = count.saturating_add(1);
        }
    }
    count
}

/// The numbers of the values in a window, where as many references are to be had, and as many values where they stand.
fn lent(alloc: Global, cache: &Cache, window: Window<'_>) -> Result<String, OutOfMemory>
    requires { IsSeenIn cache.now window }
{
    let copies = window.copies(alloc, cache)?;
    let count = window.references(alloc, cache)?.len();
    let there = count_there(&Values::seen(cache, window));
    let told = numbers(alloc, copies.as_slice())?;
    if count == copies.len() && there == count as u64 {
        Ok(told)
    } else {
        Ok(String::from_str(alloc, "another number of references")?)
    }
}

/// A window of a cell behind the insert of a value.
fn behind(
    alloc: Global,
    shelf: &mut Shelf,
    token: Token,
    range: Range,
    now: Moment,
) -> Result<String, OutOfMemory>
    requires { IsOf shelf.old.0 token }
{
    shelf.cell.reserve()?;
    shelf.cell.insert_token(token, now);
    shown(alloc, &shelf.cache, shelf.cell.window_slice(range, 0, now))
}

/// Puts a value into a cache.
fn pushed(cache: &Cache, stored: Stored) -> Result<Token, OutOfMemory>
    ensures { IfOk result (IsOf cache.now) }
{
    match cache.push(stored) {
        Ok(token) => Ok(token),
        Err(refused) => {
            drop(refused);
            Err(OutOfMemory)
        }
    }
}

/// A window beside a value, and that behind its insert.
fn around(
    alloc: Global,
    shelf: &mut Shelf,
    stored: Stored,
    range: Range,
    now: Moment,
) -> Result<String, OutOfMemory> {
    let token = pushed(&shelf.cache, stored)?;
    let window = shelf.cell.window_with(&token, range, 0, now);
    let before = lent(alloc, &shelf.cache, window);
    let after = behind(alloc, shelf, token, range, now)?;
    Ok(format!(in alloc; "{}; {}", before?.as_str(), after.as_str())?)
}

/// The same of a row: the cell, then the value, the range and the moment.
fn beside(alloc: Global, input: &str) -> Result<String, OutOfMemory> {
    let (cell, rest) = both(input, ';');
    let (text, rest) = both(rest, ' ');
    let (range, now) = both(rest, ' ');
    let stored = value_of(alloc, text)?;
    let mut shelf = cell_of(alloc, cell)?;
    let made = around(alloc, &mut shelf, stored, range_of(range), moment_of(now));
    drop(shelf);
    made
}

/// The number of the latest value, or 0.
fn latest(shelf: &Shelf) -> u64 {
    match shelf.cell.latest(&shelf.cache) {
        Some(stored) => stored.number,
        None => 0,
    }
}

/// The number of the latest value of a new cell, or 0.
fn latest_of_none(alloc: Global, keep: Keep) -> Result<u64, OutOfMemory> {
    let shelf = empty(alloc, keep)?;
    let number = latest(&shelf);
    drop(shelf);
    Ok(number)
}

/// Whether a copy is the same and keeps alike, then whether each is the same as the other once one gained a value, and then
/// the latest values of that one and of a new cell, and how many the copy holds.
fn compared(
    alloc: Global,
    shelf: &mut Shelf,
    copy: &ItemCell,
    text: &str,
) -> Result<String, OutOfMemory>
    requires { IsIn shelf.old.0 copy.now }
{
    let is_same = shelf.cell.same(&shelf.cache, copy) && copy.keep() == shelf.cell.keep();
    put_text(alloc, shelf, text, Moment::zero())?;
    let is_other = !shelf.cell.same(&shelf.cache, copy) && !copy.same(&shelf.cache, &shelf.cell);
    let none = latest_of_none(alloc, copy.keep())?;
    let last = latest(shelf);
    Ok(format!(in alloc; "{is_same} {is_other} {last} {none} {}", copy.held())?)
}

/// The same of a row: the cell, then the value.
fn copied(alloc: Global, input: &str) -> Result<String, OutOfMemory> {
    let (cell, text) = both(input, ';');
    let mut shelf = cell_of(alloc, cell)?;
    let copy = shelf.cell.copy(alloc)?;
    let made = compared(alloc, &mut shelf, &copy, text);
    drop(copy);
    drop(shelf);
    made
}

/// A cell of the latest 1,000 of 3,000 values: the n-th that comes has number n, and the time 7n of 3,000.
fn thousands(alloc: Global) -> Result<Shelf, OutOfMemory> {
    let keep = Keep {
        count: 1_000,
        period: 0,
    };
    let mut shelf = empty(alloc, keep)?;
    for number in 0..3_000u32 {
        let time = Moment {
            sec: number * 7 % 3_000,
            ns: 0,
        };
        let stored = value(alloc, u64::from(number), time)?;
        put(&mut shelf, stored, moment_of("4000"))?;
    }
    Ok(shelf)
}

/// How many of these values have the number that is 2,143 above that of the value before, modulo 3,000.
fn steps(values: &[Stored]) -> u64 {
    let mut steps: u64 = 0;
    let mut before: u64 = 0;
    for stored in values {
        if before.saturating_add(2_143) % 3_000 == stored.number {
            steps = steps.saturating_add(1);
        }
        before = stored.number;
    }
    steps
}

/// How many values there are, how many of them go on by 2,143, and the first number.
fn told_steps(alloc: Global, values: &[Stored]) -> Result<String, OutOfMemory> {
    let first = match values.first() {
        Some(stored) => stored.number,
        None => 0,
    };
    Ok(format!(in alloc; "{} {} {first}", values.len(), steps(values))?)
}

/// The same of the full window of that cell.
fn thousand(alloc: Global) -> Result<String, OutOfMemory> {
    let shelf = thousands(alloc)?;
    let window = shelf.cell.window(
        alloc,
        &shelf.cache,
        Range::Count(1_000),
        0,
        moment_of("4000"),
    );
    drop(shelf);
    told_steps(alloc, window?.as_slice())
}

/// What a case of cells comes to.
pub(crate) fn answer(
    alloc: Global,
    kind: &str,
    input: &str,
) -> Result<Option<String>, OutOfMemory> {
    match kind {
        "window" => Ok(Some(window(alloc, input)?)),
        "kept" => Ok(Some(kept(alloc, input)?)),
        "window_beside" => Ok(Some(beside(alloc, input)?)),
        "cell_copied" => Ok(Some(copied(alloc, input)?)),
        "window_of_a_thousand" => Ok(Some(thousand(alloc)?)),
        _ => Ok(None),
    }
}
