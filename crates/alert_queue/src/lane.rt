//! A recipient's notes.

ghost use Rattle.std.specs.Prelude.{◌≡◌, ◌≤◌, ◌<◌, ◌+◌, ◌*◌, ◌^◌, ◌++◌, [], ◌∷◌, ℕ, ◌↔◌, ◌≢◌, min, false, true, length, drop, slice_index, OnOk, OnErr};
ghost use Rattle.alert_queue.specs.Lanes.{greatest, empty_lane, with_note, first_of, IsTried, opened, settled, mark_of};

use crate::moments::GREATEST;
use crate::types::{Kind, Mark};
use std::alloc::{AllocError, Global};
use std::marker::Model;

/// A recipient's notes that have no mark, of which the first is tried.
#[derive(Drop)]
pub(crate) struct Lane {
    notes: Vec<u32>,
    /// The place of the first that has no mark.
    at: usize,
    failed: u32,
    limit: u32,
    interval: u32,
    is_open: bool,
    due: u64,
}

impl Model for Lane {
    ghost use Rattle.std.specs.Prelude.{◌≤◌, ◌<◌, drop, length};
    ghost use Rattle.alert_queue.specs.Lanes.{Laned, greatest};

    ghost Value = { Laned };

    ghost view = { λ l. record { left = drop l.at l.notes.items; failed = l.failed; limit = l.limit; interval = l.interval; is_open = l.is_open; due = l.due } };

    ghost invariant = { λ l. (l.at ≤ length l.notes.items) × (l.failed < l.limit) × (l.due ≤ greatest) };
}

impl Lane {
    /// No notes yet.
    pub(crate) fn new(alloc: Global, kind: Kind) -> Lane
        requires { 0 < kind.limit }
        ensures { result ≡ empty_lane kind }
    {
        Lane {
            notes: Vec::new(alloc),
            at: 0,
            failed: 0,
            limit: kind.limit,
            interval: kind.interval,
            is_open: false,
            due: 0,
        }
    }

    /// One note more, behind the others.
    pub(crate) fn push(&mut self, note: u32) -> Result<(), AllocError>
        ensures ok { OnOk result (self.new ≡ with_note self.old note) }
        ensures err { OnErr result (self.new ≡ self.old) }
    {
        self.notes.push(note)?;
        Ok(())
    }

    /// Whether a note is left.
    pub(crate) fn has_note(&self) -> bool
        ensures { (result ≡ true) ↔ (0 < length self.now.left) }
    {
        self.at < self.notes.len()
    }

    /// The note that is tried first.
    pub(crate) fn first(&self) -> u32
        requires { 0 < length self.now.left }
        ensures first { result ≡ first_of self.now }
        ensures small { result < 2 ^ 32 }
    {
        self.notes[self.at]
    }

    /// Whether a try is open.
    pub(crate) fn is_open(&self) -> bool
        ensures { result ≡ self.now.is_open }
    {
        self.is_open
    }

    /// When the first note is due.
    pub(crate) fn due(&self) -> u64
        ensures due { result ≡ self.now.due }
        ensures early { result ≤ greatest }
    {
        self.due
    }

    /// A try of the first note begins.
    pub(crate) fn start(&mut self)
        ensures { self.new ≡ opened self.old }
    {
        self.is_open = true;
    }

    /// The open try ends now. Answers the note's mark, where it has one now. Takes no memory.
    pub(crate) fn settle(&mut self, ok: bool, now: u64) -> Option<Mark>
        requires tried { IsTried self.old }
        requires early { now ≤ greatest }
        ensures mark { result ≡ mark_of self.old ok }
        ensures lane { self.new ≡ settled self.old ok now }
    {
        if ok {
            self.pass();
            return Some(Mark::Done);
        }
        if self.failed + 1 == self.limit {
            self.pass();
            return Some(Mark::Failed);
        }
        self.retry(now);
        None
    }

    /// The first note has its mark.
    fn pass(&mut self)
        requires { 0 < length self.old.left }
        ensures { self.new ≡ record self.old { left = drop 1 self.old.left; failed = 0; is_open = false; due = 0 } }
    {
        self.at += 1;
        self.failed = 0;
        self.is_open = false;
        self.due = 0;
    }

    /// The first note is tried again.
    fn retry(&mut self, now: u64)
        requires room { self.old.failed + 1 ≢ self.old.limit }
        requires early { now ≤ greatest }
        ensures { self.new ≡ record self.old { failed = self.old.failed + 1; is_open = false; due = min (now + self.old.interval * 1000000000) greatest } }
    {
        self.failed += 1;
        self.is_open = false;
        self.due = (now + u64::from(self.interval) * 1_000_000_000).min(GREATEST);
    }
}
