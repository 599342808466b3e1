//! Which batches claims take.

ghost use Rattle.std.specs.Prelude.{◌≡◌, ◌+◌, ◌≤◌, ◌^◌, length, map, IfOk};
ghost use Rattle.zbx_types.specs.Ids.{ids_from};
ghost use Rattle.syncer_gate.specs.Gate.{AreAlike, AreOffered};

use crate::footprints::{feet, tick, value};
use crate::parts::{add_number, add_word, number, numbers, split, told};
use footprint::Feet;
use std::alloc::Global;
use syncer_gate::{Batch, Claims};
use zbx_types::{Entry, Many, Numbered, OutOfMemory};

fn entry(alloc: Global, item: u32) -> Entry {
    if item == 0 {
        return tick();
    }
    value(alloc, item)
}

/// Values of these items, numbered from one number on; 0 stands for a Tick.
fn entries(alloc: Global, first: u64, items: &[u32]) -> Result<Many<Numbered>, OutOfMemory>
    requires { first + length items.now ≤ 2 ^ 64 }
    ensures size { IfOk result (λ made. length made ≡ length items.now) }
    ensures numbers { IfOk result (λ made. map (λ e. e.number) made ≡ ids_from first made) }
{
    let mut made = Many::new(alloc);
    for (place, item) in items.iter().enumerate() {
        made.push(Numbered {
            number: first + place as u64,
            entry: entry(alloc, *item),
        })?;
    }
    Ok(made)
}

/// Adds how many entries a batch has and the last one's number, as `2:4`, or `none`.
fn note(alloc: Global, made: &mut String, batch: &Option<Batch>) -> Result<(), OutOfMemory> {
    let Some(batch) = batch else {
        return add_word(made, "none");
    };
    let numbers = batch.numbers.as_slice();
    let last = match numbers.last() {
        Some(number) => *number,
        None => 0,
    };
    let word = format!(in alloc; "{}:{last}", numbers.len())?;
    add_word(made, word.as_str())
}

/// The batches that were claimed, and what the steps come to.
#[derive(Drop)]
struct Told {
    batches: Many<Batch>,
    words: String,
}

/// The batch of a claim, counted from 1, once more.
fn again(alloc: Global, batches: &[Batch], word: &str) -> Result<Option<Batch>, OutOfMemory> {
    match batches.get(number(word).saturating_sub(1) as usize) {
        None => Ok(None),
        Some(batch) => Ok(Some(Batch {
            id: batch.id,
            numbers: batch.numbers.copy(alloc)?,
        })),
    }
}

/// How many pending entries a claim looks at.
const LOOKS: u32 = 1000;

/// Claims so many entries at most, and notes the batch.
fn claim(
    alloc: Global,
    feet: &Feet,
    entries: &[Numbered],
    claims: &mut Claims,
    told: &mut Told,
    limit: u32,
) -> Result<(), OutOfMemory>
    requires { AreOffered claims.old entries.now }
    ensures { AreAlike claims.old claims.new }
{
    if limit == 0 {
        return add_word(&mut told.words, "out of range");
    }
    let batch = claims.claim(alloc, feet, entries, LOOKS, limit)?;
    note(alloc, &mut told.words, &batch)?;
    if let Some(batch) = batch {
        told.batches.push(batch)?;
    }
    Ok(())
}

/// Settles a batch, where there is one.
fn settle(claims: &mut Claims, batch: Option<Batch>)
    ensures { AreAlike claims.old claims.new }
{
    match batch {
        None => {}
        Some(batch) => claims.settle(batch),
    }
}

/// Gives a batch back, where there is one.
fn give_back(claims: &mut Claims, batch: Option<Batch>)
    ensures { AreAlike claims.old claims.new }
{
    match batch {
        None => {}
        Some(batch) => claims.give_back(batch),
    }
}

/// Adds whether a batch is open.
fn tell_open(claims: &Claims, batch: Option<Batch>, made: &mut String) -> Result<(), OutOfMemory> {
    let is_open = match &batch {
        None => false,
        Some(batch) => claims.is_open(batch),
    };
    drop(batch);
    add_word(made, if is_open { "open" } else { "closed" })
}

/// Does with the batch of a claim what a word says: `settle`, `return`, or else it tells whether it is open.
fn handle(
    claims: &mut Claims,
    word: &str,
    batch: Option<Batch>,
    made: &mut String,
) -> Result<(), OutOfMemory>
    ensures { AreAlike claims.old claims.new }
{
    match word {
        "settle" => {
            settle(claims, batch);
            Ok(())
        }
        "return" => {
            give_back(claims, batch);
            Ok(())
        }
        _ => tell_open(claims, batch, made),
    }
}

/// Takes a step: `claim LIMIT`, or what is done with the batch of a claim.
fn step(
    alloc: Global,
    feet: &Feet,
    entries: &[Numbered],
    claims: &mut Claims,
    told: &mut Told,
    words: &str,
) -> Result<(), OutOfMemory>
    requires { AreOffered claims.old entries.now }
    ensures { AreAlike claims.old claims.new }
{
    let (word, rest) = split(words, ' ');
    if word == "claim" {
        return claim(alloc, feet, entries, claims, told, number(rest));
    }
    let batch = again(alloc, told.batches.as_slice(), rest)?;
    handle(claims, word, batch, &mut told.words)
}

/// Takes steps, with commas between.
fn take_all(
    alloc: Global,
    feet: &Feet,
    entries: &[Numbered],
    claims: &mut Claims,
    told: &mut Told,
    steps: &str,
) -> Result<(), OutOfMemory>
    requires { AreOffered claims.old entries.now }
{
    for words in steps.split(',') {
        step(alloc, feet, entries, claims, told, words)?;
    }
    Ok(())
}

/// What steps come to, and at last how many entries from the first on are applied, once all that is open was given back.
fn stepped(
    alloc: Global,
    feet: &Feet,
    entries: &[Numbered],
    claims: &mut Claims,
    steps: &str,
) -> Result<String, OutOfMemory>
    requires { AreOffered claims.old entries.now }
{
    let mut told = Told {
        batches: Many::new(alloc),
        words: String::new(alloc),
    };
    let taken = take_all(alloc, feet, entries, claims, &mut told, steps);
    let Told { batches, mut words } = told;
    drop(batches);
    claims.give_back_all();
    let put = add_number(alloc, &mut words, claims.applied() as u64);
    taken.and(put).and(Ok(words))
}

/// The same over values of these items, numbered from one number on.
fn taken(
    alloc: Global,
    feet: &Feet,
    first: u64,
    items: &[u32],
    steps: &str,
) -> Result<String, OutOfMemory> {
    if 2000 < items.len() || 2000 < first {
        return told(alloc, "out of range");
    }
    let entries = entries(alloc, first, items)?;
    let mut claims = Claims::new(alloc, first);
    let made = match claims.offer(items.len() as u32) {
        Ok(()) => stepped(alloc, feet, entries.as_slice(), &mut claims, steps),
        Err(OutOfMemory) => Err(OutOfMemory),
    };
    drop(claims);
    made
}

/// The same over the entries that a text names.
fn over(alloc: Global, feet: &Feet, text: &str) -> Result<String, OutOfMemory> {
    let (first, rest) = split(text, ';');
    let (items, steps) = split(rest, ';');
    let items = numbers(alloc, items)?;
    taken(alloc, feet, number(first) as u64, items.as_slice(), steps)
}

/// What the claims in `MASTERS;TRIGGERS;FIRST;ITEMS;STEPS` come to: the items' masters and their triggers, the number of the
/// first entry, the items of the entries (0: a Tick), and the steps.
pub(crate) fn claimed(alloc: Global, input: &str) -> Result<String, OutOfMemory> {
    let (masters, rest) = split(input, ';');
    let (words, rest) = split(rest, ';');
    match feet(alloc, masters, words, "")? {
        Some(feet) => {
            let made = over(alloc, &feet, rest);
            drop(feet);
            made
        }
        None => told(alloc, "out of range"),
    }
}
