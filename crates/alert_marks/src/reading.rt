//! The marks of a file.

ghost use Rattle.std.specs.Prelude.{◌≡◌, ◌≢◌, ◌≤◌, ◌<◌, ◌==◌, ◌+◌, ◌++◌, ◌∷◌, [], ℕ, List, not, true, false, Some, Err, length, drop, get_or, IfOk, OnOk, OnErr};
ghost use Rattle.gated_file.specs.Groups.{kept_from};
ghost use Rattle.gated_file.specs.Groups.Kept.{Damaged};
ghost use Rattle.alert_marks.specs.Marks.{mark_form};
ghost use Rattle.std.specs.List.{list_any};
ghost use Rattle.alert_marks.specs.Reading.{mark_at, numbered_behind, plain_behind, AreMet, IsOurs, IsRead};
ghost use Rattle.alert_marks.specs.declared.types.MarksError.TheVariants as error;

use crate::seen::Seen;
use crate::types::MarksError;
use alert_queue::{Mark, NoteMark};
use std::alloc::Global;
use zbx_types::Reserved;

/// The place of the first gate.
const FIRST_GATE: usize = 8;

/// The byte of the switch.
const SWITCH: u8 = b'2';

/// A file on its way through its groups.
#[derive(Drop)]
pub(crate) struct Reader {
    /// The marks so far.
    pub(crate) list: Reserved<NoteMark>,
    /// Their notes.
    pub(crate) seen: Seen,
    /// The place of the next gate.
    pub(crate) gate: usize,
    /// The switch was met.
    pub(crate) is_numbered: bool,
}

/// The mark of a byte.
fn mark_at(byte: u8) -> Option<Mark>
    ensures { result ≡ mark_at byte }
{
    match byte {
        b'd' => Some(Mark::Done),
        b'f' => Some(Mark::Failed),
        _ => None,
    }
}

/// The number and the mark behind a gate, where another gate follows them.
fn numbered_behind(bytes: &[u8]) -> Option<NoteMark>
    ensures { result ≡ numbered_behind bytes.now }
{
    if bytes.len() < 6 {
        return None;
    }
    let note = u32::from_le_bytes([bytes[0], bytes[1], bytes[2], bytes[3]]);
    match mark_at(bytes[4]) {
        Some(mark) => Some(NoteMark { note, mark }),
        None => None,
    }
}

/// The byte behind a gate, where another gate follows it, and else 0.
#[tactic(auto, using(crate::proofs::Passing::plain_few, crate::proofs::Passing::plain_more))]
fn plain_behind(bytes: &[u8]) -> u8
    ensures { result ≡ plain_behind bytes.now }
{
    if bytes.len() < 2 {
        return 0;
    }
    bytes[0]
}

/// Whether a gate is there, and open.
#[tactic(auto, using(std::proofs::lemmas::List::get_or_past))]
fn is_open(bytes: &[u8], gate: usize) -> bool
    ensures is_open { result ≡ (get_or bytes.now gate 0 == 1) }
    ensures inside { result ≡ true → gate < length bytes.now }
{
    gate < bytes.len() && bytes[gate] == 1
}

impl Reader {
    /// A file of which nothing was read.
    #[tactic(auto, using(crate::proofs::Readings::none_read))]
    fn new(alloc: Global) -> Reader
        ensures read { (bytes : List ℕ) → IsOurs bytes → IsRead bytes result }
        ensures met { AreMet result }
    {
        Reader {
            list: Reserved::new(alloc),
            seen: Seen::new(alloc),
            gate: FIRST_GATE,
            is_numbered: false,
        }
    }

    /// One mark more. False is a note that has one already.
    #[tactic(auto, using(crate::proofs::Once::met_same))]
    fn add(&mut self, mark: NoteMark) -> Result<bool, MarksError>
        ensures fresh { IfOk result (λ fresh. fresh ≡ not (list_any (λ n. n == mark.note) self.old.seen)) }
        ensures seen { IfOk result (λ fresh. fresh ≡ true → self.new.seen ≡ self.old.seen ++ mark.note ∷ []) }
        ensures list { IfOk result (λ fresh. fresh ≡ true → self.new.list.items ≡ self.old.list.items ++ mark ∷ []) }
        ensures met { OnOk result (1 ≤ mark.note → AreMet self.old → AreMet self.new) }
        ensures same { (self.new.gate ≡ self.old.gate) × (self.new.is_numbered ≡ self.old.is_numbered) }
        ensures memory { OnErr result (result ≡ Err error.OutOfMemory) }
    {
        self.list.reserve(1)?;
        if !self.seen.meet(mark.note)? {
            return Ok(false);
        }
        self.list.push(mark);
        Ok(true)
    }

    /// One mark more, of the next note in order, and passes its group.
    #[tactic(auto, using(crate::proofs::Readings::unmet_next, crate::proofs::Readings::passes_plain))]
    fn count(&mut self, bytes: &[u8], mark: Mark) -> Result<(), MarksError>
        requires inside { self.old.gate < length bytes.now }
        ensures read { OnOk result (IsRead bytes.now self.old → get_or bytes.now self.old.gate 0 ≡ 1 → self.old.is_numbered ≡ false → mark_at (plain_behind (drop (self.old.gate + 1) bytes.now)) ≡ Some mark → IsRead bytes.now self.new) }
        ensures met { OnOk result (AreMet self.old → AreMet self.new) }
        ensures rises { OnOk result (self.old.gate < self.new.gate) }
        ensures memory { OnErr result (result ≡ Err error.OutOfMemory) }
    {
        let Ok(note) = u32::try_from(self.list.as_slice().len() + 1) else {
            return Err(MarksError::OutOfMemory);
        };
        self.add(NoteMark { note, mark })?;
        self.gate += 2;
        Ok(())
    }

    /// Passes a group before the switch, or the switch.
    #[tactic(auto, using(crate::proofs::Readings::passes_switch, crate::proofs::Readings::damaged_plain))]
    fn pass_plain(&mut self, bytes: &[u8]) -> Result<(), MarksError>
        requires inside { self.old.gate < length bytes.now }
        ensures read { OnOk result (IsRead bytes.now self.old → get_or bytes.now self.old.gate 0 ≡ 1 → self.old.is_numbered ≡ false → IsRead bytes.now self.new) }
        ensures met { OnOk result (AreMet self.old → AreMet self.new) }
        ensures rises { OnOk result (self.old.gate < self.new.gate) }
        ensures damaged { (at : ℕ) → result ≡ Err (error.Damaged at) → IsRead bytes.now self.old → get_or bytes.now self.old.gate 0 ≡ 1 → self.old.is_numbered ≡ false → kept_from mark_form bytes.now ≡ Damaged at }
        ensures ours { result ≢ Err error.NotOurs }
        ensures no_fault { result ≢ Err error.DiskFault }
    {
        let byte = plain_behind(&bytes[self.gate + 1..]);
        if byte == SWITCH {
            self.is_numbered = true;
            self.gate += 2;
            return Ok(());
        }
        match mark_at(byte) {
            Some(mark) => self.count(bytes, mark),
            None => Err(MarksError::Damaged {
                at: self.gate as u64,
            }),
        }
    }

    /// Passes a group behind the switch.
    #[tactic(auto, using(crate::proofs::Readings::passes_numbered, crate::proofs::Readings::damaged_none, crate::proofs::Readings::damaged_zero, crate::proofs::Readings::damaged_met))]
    fn pass_numbered(&mut self, bytes: &[u8]) -> Result<(), MarksError>
        requires inside { self.old.gate < length bytes.now }
        ensures read { OnOk result (IsRead bytes.now self.old → get_or bytes.now self.old.gate 0 ≡ 1 → self.old.is_numbered ≡ true → IsRead bytes.now self.new) }
        ensures met { OnOk result (AreMet self.old → AreMet self.new) }
        ensures rises { OnOk result (self.old.gate < self.new.gate) }
        ensures damaged { (at : ℕ) → result ≡ Err (error.Damaged at) → IsRead bytes.now self.old → get_or bytes.now self.old.gate 0 ≡ 1 → self.old.is_numbered ≡ true → kept_from mark_form bytes.now ≡ Damaged at }
        ensures ours { result ≢ Err error.NotOurs }
        ensures no_fault { result ≢ Err error.DiskFault }
    {
        let at = self.gate as u64;
        match numbered_behind(&bytes[self.gate + 1..]) {
            None => Err(MarksError::Damaged { at }),
            Some(mark) => {
                if mark.note == 0 {
                    return Err(MarksError::Damaged { at });
                }
                if !self.add(mark)? {
                    return Err(MarksError::Damaged { at });
                }
                self.gate += 6;
                Ok(())
            }
        }
    }

    /// Passes a group.
    fn pass(&mut self, bytes: &[u8]) -> Result<(), MarksError>
        requires inside { self.old.gate < length bytes.now }
        ensures read { OnOk result (IsRead bytes.now self.old → get_or bytes.now self.old.gate 0 ≡ 1 → IsRead bytes.now self.new) }
        ensures met { OnOk result (AreMet self.old → AreMet self.new) }
        ensures rises { OnOk result (self.old.gate < self.new.gate) }
        ensures damaged { (at : ℕ) → result ≡ Err (error.Damaged at) → IsRead bytes.now self.old → get_or bytes.now self.old.gate 0 ≡ 1 → kept_from mark_form bytes.now ≡ Damaged at }
        ensures ours { result ≢ Err error.NotOurs }
        ensures no_fault { result ≢ Err error.DiskFault }
    {
        if self.is_numbered {
            self.pass_numbered(bytes)
        } else {
            self.pass_plain(bytes)
        }
    }
}

/// The marks of a file's bytes, up to the first gate that isn't open.
pub(crate) fn read_groups(alloc: Global, bytes: &[u8]) -> Result<Reader, MarksError>
    ensures read { IfOk result (λ reader. IsOurs bytes.now → IsRead bytes.now reader) }
    ensures met { IfOk result AreMet }
    ensures shut { IfOk result (λ reader. get_or bytes.now reader.gate 0 ≢ 1) }
    ensures damaged { (at : ℕ) → result ≡ Err (error.Damaged at) → IsOurs bytes.now → kept_from mark_form bytes.now ≡ Damaged at }
    ensures ours { result ≢ Err error.NotOurs }
    ensures no_fault { result ≢ Err error.DiskFault }
{
    let mut reader = Reader::new(alloc);
    while is_open(bytes, reader.gate) {
        reader.pass(bytes)?;
    }
    Ok(reader)
}
