//! A base read from bytes.

ghost use Rattle.std.specs.Prelude.{◌≡◌, ◌<◌, ◌-◌, ◌*◌, ℕ, Option, List, IfOk, IfSome};
ghost use Rattle.intake_journal.specs.BaseBytes.{stands_first, stand_in_order, IsFormed};
ghost use Rattle.intake_journal.specs.BaseForm.{long_at, byte_at, flag_at, words_at, parts_at, list_at, ticks_at, value_at, step_at, item_at, tag_at, ran_at, event_at, marks_at, names_at, record_at, problem_at, head_at, base_behind_head, base_read};
ghost use Rattle.intake_journal.specs.Given.{Gives};

use crate::decoding::{Unread, moment_of, number_of, piece_of, text_of};
use byteorder::{ByteOrder, LittleEndian};
use std::alloc::Global;
use zbx_types::{
    Base, BaseItem, BaseProblem, BaseStep, BaseValue, EventId, Many, Moment, OutOfMemory, Ran, Rec,
    Tag, Text,
};

/// The number of eight bytes at the front, and the bytes behind it.
fn long_of(bytes: &[u8]) -> Result<(u64, &[u8]), Unread>
    ensures { Gives (λ x. (x.0, x.1.now)) result (long_at bytes.now) }
{
    if bytes.len() < 8 {
        return Err(Unread::Malformed);
    }
    let (front, rest) = bytes.split_at(8);
    Ok((LittleEndian::read_u64(front), rest))
}

/// The byte at the front, and the bytes behind it.
fn byte_of(bytes: &[u8]) -> Result<(u8, &[u8]), Unread>
    ensures { Gives (λ x. (x.0, x.1.now)) result (byte_at bytes.now) }
{
    match bytes {
        [byte, rest @ ..] => Ok((*byte, rest)),
        [] => Err(Unread::Malformed),
    }
}

/// Whether something is so, by the byte at the front, and the bytes behind it.
#[tactic(auto, unfolding(crate::specs::BaseForm::flag_at))]
fn flag_of(bytes: &[u8]) -> Result<(bool, &[u8]), Unread>
    ensures { Gives (λ x. (x.0, x.1.now)) result (flag_at bytes.now) }
{
    let (byte, rest) = byte_of(bytes)?;
    match byte {
        0 => Ok((false, rest)),
        1 => Ok((true, rest)),
        _ => Err(Unread::Malformed),
    }
}

/// The text at the front, and the bytes behind it.
#[tactic(auto, unfolding(crate::specs::BaseForm::words_at))]
fn words_of(alloc: Global, bytes: &[u8]) -> Result<(Text, &[u8]), Unread>
    ensures { Gives (λ x. (x.0, x.1.now)) result (words_at bytes.now) }
{
    let (piece, rest) = piece_of(bytes)?;
    let text = text_of(alloc, piece)?;
    Ok((text, rest))
}

/// How a part of a base is read. It is named by a type that is only a name.
trait PartReader {
    /// The part.
    type Part: Drop;

    /// The part at the front of bytes, and the bytes behind it.
    ghost part_at: { List ℕ → Option (Self.Part × List ℕ) };

    /// Reads the part at the front, and gives the bytes behind it.
    fn read(alloc: Global, bytes: &[u8]) -> Result<(Self::Part, &[u8]), Unread>
        ensures { Gives (λ x. (x.0, x.1.now)) result (part_at bytes.now) };
}

/// So many parts at the front, and the bytes behind them.
fn parts_of<R: PartReader>(
    alloc: Global,
    bytes: &[u8],
    count: u32,
) -> Result<(Many<R::Part>, &[u8]), Unread>
    ensures { Gives (λ x. (x.0, x.1.now)) result (parts_at R.part_at count bytes.now) }
{
    let mut parts = Many::new(alloc);
    let mut rest = bytes;
    for _ in 0..count {
        match R::read(alloc, rest) {
            Ok((part, behind)) => {
                parts.push(part)?;
                rest = behind;
            }
            Err(why) => return Err(why),
        }
    }
    Ok((parts, rest))
}

/// The list at the front, and the bytes behind it.
fn list_of<R: PartReader>(alloc: Global, bytes: &[u8]) -> Result<(Many<R::Part>, &[u8]), Unread>
    ensures { Gives (λ x. (x.0, x.1.now)) result (list_at R.part_at bytes.now) }
{
    let (count, rest) = number_of(bytes)?;
    parts_of::<R>(alloc, rest, count)
}

/// The reading of values.
struct Values;

impl PartReader for Values {
    type Part = BaseValue;

    ghost part_at = { value_at };

    #[tactic(auto, unfolding(crate::specs::BaseForm::value_at))]
    fn read(alloc: Global, bytes: &[u8]) -> Result<(BaseValue, &[u8]), Unread> {
        let (sec, ns, rest) = moment_of(bytes)?;
        let (number, rest) = long_of(rest)?;
        let (value, rest) = words_of(alloc, rest)?;
        let time = Moment { sec, ns };
        let read = BaseValue {
            time,
            number,
            value,
        };
        Ok((read, rest))
    }
}

/// The reading of what steps remember.
struct Steps;

impl PartReader for Steps {
    type Part = BaseStep;

    ghost part_at = { step_at };

    #[tactic(auto, unfolding(crate::specs::BaseForm::step_at))]
    fn read(alloc: Global, bytes: &[u8]) -> Result<(BaseStep, &[u8]), Unread> {
        let (there, rest) = flag_of(bytes)?;
        let (sec, ns, rest) = moment_of(rest)?;
        let (value, rest) = words_of(alloc, rest)?;
        let time = Moment { sec, ns };
        Ok((BaseStep { there, time, value }, rest))
    }
}

/// The reading of items.
struct Items;

impl PartReader for Items {
    type Part = BaseItem;

    ghost part_at = { item_at };

    #[tactic(auto, unfolding(crate::specs::BaseForm::item_at))]
    fn read(alloc: Global, bytes: &[u8]) -> Result<(BaseItem, &[u8]), Unread> {
        let (values, rest) = list_of::<Values>(alloc, bytes)?;
        let (steps, rest) = list_of::<Steps>(alloc, rest)?;
        Ok((BaseItem { values, steps }, rest))
    }
}

/// The reading of tags.
struct Tags;

impl PartReader for Tags {
    type Part = Tag;

    ghost part_at = { tag_at };

    #[tactic(auto, unfolding(crate::specs::BaseForm::tag_at))]
    fn read(alloc: Global, bytes: &[u8]) -> Result<(Tag, &[u8]), Unread> {
        let (tag, rest) = words_of(alloc, bytes)?;
        let (value, rest) = words_of(alloc, rest)?;
        Ok((Tag { tag, value }, rest))
    }
}

/// The reading of actions that ran.
struct Runs;

impl PartReader for Runs {
    type Part = Ran;

    ghost part_at = { ran_at };

    #[tactic(auto, unfolding(crate::specs::BaseForm::ran_at))]
    fn read(alloc: Global, bytes: &[u8]) -> Result<(Ran, &[u8]), Unread> {
        let (action, rest) = words_of(alloc, bytes)?;
        let (step, rest) = number_of(rest)?;
        let (sec, ns, rest) = moment_of(rest)?;
        let now = Moment { sec, ns };
        Ok((Ran { action, step, now }, rest))
    }
}

/// The event at the front, and the bytes behind it.
#[tactic(auto, unfolding(crate::specs::BaseForm::event_at))]
fn event_of(bytes: &[u8]) -> Result<(EventId, &[u8]), Unread>
    ensures { Gives (λ x. (x.0, x.1.now)) result (event_at bytes.now) }
{
    let (number, rest) = long_of(bytes)?;
    let (trigger, rest) = number_of(rest)?;
    Ok((EventId { number, trigger }, rest))
}

/// How severe a problem is and whether it is suppressed, and the bytes behind that.
#[tactic(auto, unfolding(crate::specs::BaseForm::marks_at))]
fn marks_of(bytes: &[u8]) -> Result<(u8, bool, &[u8]), Unread>
    ensures { Gives (λ x. (x.0, x.1, x.2.now)) result (marks_at bytes.now) }
{
    let (severity, rest) = byte_of(bytes)?;
    let (suppressed, rest) = flag_of(rest)?;
    Ok((severity, suppressed, rest))
}

/// Three texts, and the bytes behind them.
#[tactic(auto, unfolding(crate::specs::BaseForm::names_at))]
fn names_of(alloc: Global, bytes: &[u8]) -> Result<(Text, Text, Text, &[u8]), Unread>
    ensures { Gives (λ x. (x.0, x.1, x.2, x.3.now)) result (names_at bytes.now) }
{
    let (host, rest) = words_of(alloc, bytes)?;
    let (trigger, rest) = words_of(alloc, rest)?;
    let (name, rest) = words_of(alloc, rest)?;
    Ok((host, trigger, name, rest))
}

/// The Problem record at the front, and the bytes behind it.
#[tactic(auto, unfolding(crate::specs::BaseForm::record_at))]
fn record_of(alloc: Global, bytes: &[u8]) -> Result<(Rec, &[u8]), Unread>
    ensures { Gives (λ x. (x.0, x.1.now)) result (record_at bytes.now) }
{
    let (event, rest) = event_of(bytes)?;
    let (sec, ns, rest) = moment_of(rest)?;
    let (severity, suppressed, rest) = marks_of(rest)?;
    let (host, trigger, name, rest) = names_of(alloc, rest)?;
    match list_of::<Tags>(alloc, rest) {
        Ok((tags, rest)) => {
            let now = Moment { sec, ns };
            let read = Rec::Problem {
                event,
                now,
                severity,
                suppressed,
                host,
                trigger,
                name,
                tags,
            };
            Ok((read, rest))
        }
        Err(why) => {
            drop((host, trigger, name));
            Err(why)
        }
    }
}

/// Whether an action's name comes before that of the first of these.
fn comes_first(one: &Ran, behind: &[Ran]) -> bool
    ensures { result ≡ stands_first one.entry.now behind.now }
{
    match behind {
        [next, ..] => one.action.cmp(&next.action).is_le(),
        [] => true,
    }
}

/// Whether actions stand in byte order of their names.
#[tactic(auto, using(crate::proofs::PartsRead::order_goes_on, crate::proofs::PartsRead::order_ends))]
fn are_in_order(ran: &[Ran]) -> bool
    ensures { result ≡ stand_in_order ran.now }
{
    let mut rest = ran;
    while let [one, behind @ ..] = rest {
        if !comes_first(one, behind) {
            return false;
        }
        rest = behind;
    }
    true
}

/// The reading of open problems.
struct Problems;

impl PartReader for Problems {
    type Part = BaseProblem;

    ghost part_at = { problem_at };

    #[tactic(auto, unfolding(crate::specs::BaseForm::problem_at))]
    fn read(alloc: Global, bytes: &[u8]) -> Result<(BaseProblem, &[u8]), Unread> {
        let (problem, rest) = record_of(alloc, bytes)?;
        match list_of::<Runs>(alloc, rest) {
            Ok((ran, rest)) => {
                if are_in_order(ran.as_slice()) {
                    Ok((BaseProblem { problem, ran }, rest))
                } else {
                    drop(problem);
                    drop(ran);
                    Err(Unread::Malformed)
                }
            }
            Err(why) => {
                drop(problem);
                Err(why)
            }
        }
    }
}

/// The first and the last Tick, if there was one, and the bytes behind them.
#[tactic(auto, unfolding(crate::specs::BaseForm::ticks_at))]
fn ticks_of(bytes: &[u8]) -> Result<(Option<Moment>, Option<Moment>, &[u8]), Unread>
    ensures { Gives (λ x. (x.0, x.1, x.2.now)) result (ticks_at bytes.now) }
{
    let (there, rest) = flag_of(bytes)?;
    let (first_sec, first_ns, rest) = moment_of(rest)?;
    let (last_sec, last_ns, rest) = moment_of(rest)?;
    let first = Moment {
        sec: first_sec,
        ns: first_ns,
    };
    let last = Moment {
        sec: last_sec,
        ns: last_ns,
    };
    if there {
        return Ok((Some(first), Some(last), rest));
    }
    if first.nanoseconds() == 0 && last.nanoseconds() == 0 {
        return Ok((None, None, rest));
    }
    Err(Unread::Malformed)
}

/// What stands before a base's text.
#[derive(Clone, Copy)]
struct Head {
    number: u64,
    now: Moment,
    first_tick: Option<Moment>,
    last_tick: Option<Moment>,
    lines: u64,
}

/// What stands before the text, and the bytes behind it.
#[tactic(auto, unfolding(crate::specs::BaseForm::head_at))]
fn head_of(bytes: &[u8]) -> Result<(Head, &[u8]), Unread>
    ensures { Gives (λ x. (x.0.number, x.0.now, x.0.first_tick, x.0.last_tick, x.0.lines, x.1.now)) result (head_at bytes.now) }
{
    let (number, rest) = long_of(bytes)?;
    let (sec, ns, rest) = moment_of(rest)?;
    match ticks_of(rest) {
        Ok((first_tick, last_tick, rest)) => {
            let (lines, rest) = long_of(rest)?;
            let now = Moment { sec, ns };
            let head = Head {
                number,
                now,
                first_tick,
                last_tick,
                lines,
            };
            Ok((head, rest))
        }
        Err(why) => Err(why),
    }
}

/// The base that begins with this, of which all of the bytes are the rest.
#[tactic(auto, unfolding(crate::specs::BaseForm::base_behind_head))]
fn behind_head(alloc: Global, head: Head, bytes: &[u8]) -> Result<Base, Unread>
    ensures { Gives (λ x. x) result (base_behind_head (head.number, head.now, head.first_tick, head.last_tick, head.lines, bytes.now)) }
{
    let (text, rest) = words_of(alloc, bytes)?;
    let (items, rest) = list_of::<Items>(alloc, rest)?;
    let (problems, rest) = list_of::<Problems>(alloc, rest)?;
    if text.len() == 0 || !rest.is_empty() {
        return Err(Unread::Malformed);
    }
    Ok(Base {
        number: head.number,
        now: head.now,
        first_tick: head.first_tick,
        last_tick: head.last_tick,
        lines: head.lines,
        text,
        items,
        problems,
    })
}

/// The base that all of the bytes are.
#[tactic(auto, unfolding(crate::specs::BaseForm::base_read))]
fn base_of(alloc: Global, bytes: &[u8]) -> Result<Base, Unread>
    ensures { Gives (λ x. x) result (base_read bytes.now) }
{
    match head_of(bytes) {
        Ok((head, rest)) => behind_head(alloc, head, rest),
        Err(why) => Err(why),
    }
}

/// The base that the bytes are, or None where they are none. What is read may be written. [`OutOfMemory`] where there is no
/// room for it.
pub fn decode_base(alloc: Global, bytes: &[u8]) -> Result<Option<Base>, OutOfMemory>
    ensures read { IfOk result (λ read. read ≡ base_read bytes.now) }
    ensures formed { IfOk result (λ read. IfSome read IsFormed) }
{
    match base_of(alloc, bytes) {
        Ok(base) => Ok(Some(base)),
        Err(Unread::Malformed) => Ok(None),
        Err(Unread::Memory) => Err(OutOfMemory),
    }
}
