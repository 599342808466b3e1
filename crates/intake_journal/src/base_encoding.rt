//! A base written as bytes.

ghost use Rattle.std.specs.Prelude.{◌≡◌, ◌++◌, ◌/◌, ◌^◌, ◌<◌, Option, List, ℕ, All, unwrap_or, IfSome, OnOk};
ghost use Rattle.std.specs.List.{flat_map};
ghost use Rattle.std.specs.Str.{IsUtf8};
ghost use Rattle.intake_journal.specs.Bytes.{number_bytes, moment_bytes, text_bytes};
ghost use Rattle.intake_journal.specs.BaseBytes.{long_bytes, flag_bytes, list_bytes, ticks_bytes, event_bytes, head_bytes, value_bytes, step_bytes, item_bytes, tag_bytes, ran_bytes, record_bytes, problem_bytes, base_bytes};
ghost use Rattle.intake_journal.specs.BaseTypes.{IsMoment, IsValueTyped, IsStepTyped, IsItemTyped, IsTagTyped, IsRanTyped, IsRecordTyped, IsProblemTyped, IsHeadTyped, IsBaseTyped};

use crate::encoding::low;
use byteorder::{ByteOrder, LittleEndian};
use std::convert::AsStr;
use zbx_types::{
    Base, BaseItem, BaseProblem, BaseStep, BaseValue, Bytes, EventId, Moment, OutOfMemory, Ran,
    Rec, Tag, Text,
};

/// Adds a number of four bytes.
pub(crate) fn put_number(out: &mut Bytes, number: u32) -> Result<(), OutOfMemory>
    ensures { OnOk result (out.new ≡ out.old ++ number_bytes number) }
{
    let mut four = [0; 4];
    LittleEndian::write_u32(&mut four, number);
    out.extend(&four)
}

/// Adds a number of eight bytes.
fn put_long(out: &mut Bytes, number: u64) -> Result<(), OutOfMemory>
    ensures { OnOk result (out.new ≡ out.old ++ long_bytes number) }
{
    let mut eight = [0; 8];
    LittleEndian::write_u64(&mut eight, number);
    out.extend(&eight)
}

/// Adds a moment.
fn put_moment(out: &mut Bytes, moment: Moment) -> Result<(), OutOfMemory>
    ensures ok { OnOk result (out.new ≡ out.old ++ moment_bytes moment) }
    ensures typed { IsMoment moment }
{
    let mut parts = [0; 8];
    LittleEndian::write_u32(&mut parts[0..4], moment.sec);
    LittleEndian::write_u32(&mut parts[4..8], moment.ns);
    out.extend(&parts)
}

/// Adds a byte that says whether something is so.
fn put_flag(out: &mut Bytes, so: bool) -> Result<(), OutOfMemory>
    ensures { OnOk result (out.new ≡ out.old ++ flag_bytes so) }
{
    out.extend(&[u8::from(so)])
}

/// Adds a text behind how many bytes it has.
fn put_text(out: &mut Bytes, text: &Text) -> Result<(), OutOfMemory>
    ensures ok { OnOk result (out.new ≡ out.old ++ text_bytes text.now) }
    ensures typed { OnOk result (IsUtf8 text.now) }
{
    put_number(out, low(text.len()))?;
    out.extend(text.as_str().as_bytes())?;
    Ok(())
}

/// How a part of a base is written. It is named by a type that is only a name.
trait Written {
    /// The part.
    type Part: Drop;

    /// Its bytes.
    ghost bytes: { Self.Part → List ℕ };

    /// What its type says of it.
    ghost typed: { Self.Part → Type 0 };

    /// Adds its bytes.
    fn put(out: &mut Bytes, part: &Self::Part) -> Result<(), OutOfMemory>
        ensures ok { OnOk result (out.new ≡ out.old ++ bytes part.now) }
        ensures typed { OnOk result (typed part.now) };
}

/// Adds all of a list.
fn put_all<W: Written>(out: &mut Bytes, parts: &[W::Part]) -> Result<(), OutOfMemory>
    ensures ok { OnOk result (out.new ≡ out.old ++ flat_map W.bytes parts.now) }
    ensures typed { OnOk result (All W.typed parts.now) }
{
    for part in parts {
        W::put(out, part)?;
    }
    Ok(())
}

/// Adds a list behind how many parts it has.
fn put_list<W: Written>(out: &mut Bytes, parts: &[W::Part]) -> Result<(), OutOfMemory>
    ensures ok { OnOk result (out.new ≡ out.old ++ list_bytes W.bytes parts.now) }
    ensures typed { OnOk result (All W.typed parts.now) }
{
    put_number(out, low(parts.len()))?;
    put_all::<W>(out, parts)?;
    Ok(())
}

/// The writing of values.
struct Values;

impl Written for Values {
    type Part = BaseValue;

    ghost bytes = { value_bytes };

    ghost typed = { IsValueTyped };

    #[tactic(auto, unfolding(crate::specs::BaseBytes::value_bytes))]
    fn put(out: &mut Bytes, part: &BaseValue) -> Result<(), OutOfMemory> {
        put_moment(out, part.time)?;
        put_long(out, part.number)?;
        put_text(out, &part.value)?;
        Ok(())
    }
}

/// The writing of what steps remember.
struct Steps;

impl Written for Steps {
    type Part = BaseStep;

    ghost bytes = { step_bytes };

    ghost typed = { IsStepTyped };

    #[tactic(auto, unfolding(crate::specs::BaseBytes::step_bytes))]
    fn put(out: &mut Bytes, part: &BaseStep) -> Result<(), OutOfMemory> {
        put_flag(out, part.there)?;
        put_moment(out, part.time)?;
        put_text(out, &part.value)?;
        Ok(())
    }
}

/// The writing of items.
struct Items;

impl Written for Items {
    type Part = BaseItem;

    ghost bytes = { item_bytes };

    ghost typed = { IsItemTyped };

    #[tactic(auto, unfolding(crate::specs::BaseBytes::item_bytes))]
    fn put(out: &mut Bytes, part: &BaseItem) -> Result<(), OutOfMemory> {
        put_list::<Values>(out, part.values.as_slice())?;
        put_list::<Steps>(out, part.steps.as_slice())?;
        Ok(())
    }
}

/// The writing of tags.
struct Tags;

impl Written for Tags {
    type Part = Tag;

    ghost bytes = { tag_bytes };

    ghost typed = { IsTagTyped };

    #[tactic(auto, unfolding(crate::specs::BaseBytes::tag_bytes))]
    fn put(out: &mut Bytes, part: &Tag) -> Result<(), OutOfMemory> {
        put_text(out, &part.tag)?;
        put_text(out, &part.value)?;
        Ok(())
    }
}

/// The writing of actions that ran.
struct Runs;

impl Written for Runs {
    type Part = Ran;

    ghost bytes = { ran_bytes };

    ghost typed = { IsRanTyped };

    #[tactic(auto, unfolding(crate::specs::BaseBytes::ran_bytes))]
    fn put(out: &mut Bytes, part: &Ran) -> Result<(), OutOfMemory> {
        put_text(out, &part.action)?;
        put_number(out, part.step)?;
        put_moment(out, part.now)?;
        Ok(())
    }
}

/// Adds an event, and when, how severe and whether suppressed.
fn put_event(
    out: &mut Bytes,
    event: EventId,
    now: Moment,
    severity: u8,
    suppressed: bool,
) -> Result<(), OutOfMemory>
    ensures ok { OnOk result (out.new ≡ out.old ++ event_bytes event now severity suppressed) }
    ensures typed { OnOk result ((event.number < 2 ^ 64) × (event.trigger < 2 ^ 32) × IsMoment now) }
{
    put_long(out, event.number)?;
    put_number(out, event.trigger)?;
    put_moment(out, now)?;
    out.extend(&[severity])?;
    put_flag(out, suppressed)?;
    Ok(())
}

/// Adds three texts.
fn put_names(out: &mut Bytes, host: &Text, trigger: &Text, name: &Text) -> Result<(), OutOfMemory>
    ensures ok { OnOk result (out.new ≡ out.old ++ (text_bytes host.now ++ text_bytes trigger.now ++ text_bytes name.now)) }
    ensures typed { OnOk result (IsUtf8 host.now × IsUtf8 trigger.now × IsUtf8 name.now) }
{
    put_text(out, host)?;
    put_text(out, trigger)?;
    put_text(out, name)?;
    Ok(())
}

/// Adds a Problem record; of any other nothing.
#[tactic(auto, unfolding(crate::specs::BaseBytes::record_bytes))]
fn put_record(out: &mut Bytes, record: &Rec) -> Result<(), OutOfMemory>
    ensures ok { OnOk result (out.new ≡ out.old ++ record_bytes record.now) }
    ensures typed { OnOk result (IsRecordTyped record.now) }
{
    match record {
        Rec::Problem {
            event,
            now,
            severity,
            suppressed,
            host,
            trigger,
            name,
            tags,
        } => {
            put_event(out, *event, *now, *severity, *suppressed)?;
            put_names(out, host, trigger, name)?;
            put_list::<Tags>(out, tags.as_slice())?;
            Ok(())
        }
        Rec::Failure { .. } | Rec::Recovery { .. } | Rec::Step { .. } | Rec::Message { .. } => Ok(
            (),
        ),
    }
}

/// The writing of open problems.
struct Problems;

impl Written for Problems {
    type Part = BaseProblem;

    ghost bytes = { problem_bytes };

    ghost typed = { IsProblemTyped };

    #[tactic(auto, unfolding(crate::specs::BaseBytes::problem_bytes))]
    fn put(out: &mut Bytes, part: &BaseProblem) -> Result<(), OutOfMemory> {
        put_record(out, &part.problem)?;
        put_list::<Runs>(out, part.ran.as_slice())?;
        Ok(())
    }
}

/// A moment, or moment 0 where there is none.
fn or_zero(moment: Option<Moment>) -> Moment
    ensures { result ≡ unwrap_or moment 0 }
{
    match moment {
        Some(there) => there,
        None => Moment::zero(),
    }
}

/// Adds the first and the last Tick.
fn put_ticks(
    out: &mut Bytes,
    first: Option<Moment>,
    last: Option<Moment>,
) -> Result<(), OutOfMemory>
    ensures ok { OnOk result (out.new ≡ out.old ++ ticks_bytes first last) }
    ensures typed { OnOk result (IfSome first IsMoment × IfSome last IsMoment) }
{
    put_flag(out, first.is_some())?;
    put_moment(out, or_zero(first))?;
    put_moment(out, or_zero(last))?;
    Ok(())
}

/// Adds what stands before the text.
fn put_head(out: &mut Bytes, base: &Base) -> Result<(), OutOfMemory>
    ensures ok { OnOk result (out.new ≡ out.old ++ head_bytes base.entry.now) }
    ensures typed { OnOk result (IsHeadTyped base.entry.now) }
{
    put_long(out, base.number)?;
    put_moment(out, base.now)?;
    put_ticks(out, base.first_tick, base.last_tick)?;
    put_long(out, base.lines)?;
    Ok(())
}

/// Adds a base. At [`OutOfMemory`] some of it may have been added.
#[tactic(auto, unfolding(crate::specs::BaseBytes::base_bytes))]
pub(crate) fn put_base(out: &mut Bytes, base: &Base) -> Result<(), OutOfMemory>
    ensures ok { OnOk result (out.new ≡ out.old ++ base_bytes base.entry.now) }
    ensures typed { OnOk result (IsBaseTyped base.entry.now) }
{
    put_head(out, base)?;
    put_text(out, &base.text)?;
    put_list::<Items>(out, base.items.as_slice())?;
    put_list::<Problems>(out, base.problems.as_slice())?;
    Ok(())
}
