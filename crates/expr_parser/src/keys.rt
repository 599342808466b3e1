//! Bytes of a key one behind another, which are taken at once.

ghost use Rattle.std.specs.Prelude.{◌≤◌, ℕ, List, length, IfOk, IfSome};
ghost use Rattle.expr_parser.specs.Machine as machine;
ghost use Rattle.expr_parser.specs.Staying.{KeyGoes, KeyLeads, Leads};
ghost use Rattle.expr_parser.specs.View.{state};
ghost use Rattle.expr_parser.specs.declared.pending.Pending.{Pending};
ghost use Rattle.zbx_types.specs.declared.calls.Call.{Call};
ghost use Rattle.zbx_types.specs.declared.calls.Fun.{Fun};

use crate::call_bytes::delimiter;
use crate::states::{Mode, State};
use byte_grammar::Character;
use item_key::{Place, may_end, next};
use zbx_types::{Bytes, LONGEST_KEY, OutOfMemory};

/// A place in a key, in its character, and the byte in front of it.
#[derive(Clone, Copy)]
pub(crate) struct Spot {
    pub(crate) place: Place,
    pub(crate) character: Character,
    pub(crate) last: u8,
}

/// The spot behind one byte more, where a key goes on with it and doesn't end before it.
#[inline(always)]
fn behind(spot: Spot, byte: u8) -> Option<Spot>
    ensures { IfSome result (KeyGoes spot byte) }
{
    if delimiter(byte) && may_end(spot.place) {
        return None;
    }
    let place = next(spot.place, byte)?;
    let character = byte_grammar::next(spot.character, byte)?;
    Some(Spot {
        place,
        character,
        last: byte,
    })
}

/// How many bytes, at most so many, a key goes on with, and the spot behind them.
#[inline(always)]
#[tactic(auto, using(crate::proofs::KeyRuns::key_none, crate::proofs::KeyRuns::key_more))]
fn span(from: Spot, rest: &[u8], most: usize) -> (usize, Spot)
    ensures within { result.0 ≤ length rest.now }
    ensures few { result.0 ≤ most }
    ensures leads { KeyLeads from rest.now result.0 result.1 }
{
    let mut count = 0;
    let mut spot = from;
    for byte in rest {
        if count == most {
            return (count, spot);
        }
        match behind(spot, *byte) {
            None => return (count, spot),
            Some(on) => spot = on,
        }
        count += 1;
    }
    (count, spot)
}

/// Adds the bytes at the front of what is left that a key goes on with, at most so many, and answers how many.
#[inline(always)]
#[tactic(auto, using(crate::proofs::KeyRuns::key_taken, crate::proofs::KeyRuns::leads_none))]
fn key_more(
    key: &mut Bytes,
    place: &mut Place,
    character: &mut Character,
    last: &mut u8,
    rest: &[u8],
    most: usize,
) -> Result<usize, OutOfMemory>
    ensures within { IfOk result (λ n. n ≤ length rest.now) }
    ensures few { IfOk result (λ n. n ≤ most) }
    ensures goes { IfOk result (λ n. (f : Fun) (h : List ℕ) (o : ℕ) (k : List Pending) (cs : List Call) → Leads (machine.state (machine.Key f h key.old place.old character.old) last.old o k cs) rest.now n (machine.state (machine.Key f h key.new place.new character.new) last.new o k cs)) }
{
    let length = key.len();
    if length >= LONGEST_KEY {
        return Ok(0);
    }
    let room = LONGEST_KEY - length;
    let most = if room < most { room } else { most };
    let from = Spot {
        place: *place,
        character: *character,
        last: *last,
    };
    let (count, spot) = span(from, rest, most);
    key.extend(&rest[..count])?;
    *place = spot.place;
    *character = spot.character;
    *last = spot.last;
    Ok(count)
}

/// Takes the bytes at the front of what is left that a key goes on with, at most so many, and answers how many: none where
/// the state is in no key.
#[inline(always)]
#[tactic(auto, using(crate::proofs::KeyRuns::leads_none))]
pub(crate) fn key_run(s: &mut State, rest: &[u8], most: usize) -> Result<usize, OutOfMemory>
    ensures within { IfOk result (λ n. n ≤ length rest.now) }
    ensures few { IfOk result (λ n. n ≤ most) }
    ensures goes { IfOk result (λ n. Leads (state s.old) rest.now n (state s.new)) }
{
    match &mut s.mode {
        Mode::Key(_, _, key, place, character) => {
            key_more(key, place, character, &mut s.last, rest, most)
        }
        _ => Ok(0),
    }
}
