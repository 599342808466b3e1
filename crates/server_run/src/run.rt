//! The top call.

ghost use Rattle.std.specs.Prelude.{◌≡◌, false, None};
ghost use Rattle.outside.specs.Causes.{Rose};
ghost use Rattle.book_opening.specs.Outgoing.{IsLeft};
ghost use Rattle.server_words.specs.Words.{plan_of};
ghost use Rattle.server_run.specs.Ran.{IsUpToLine, IsRun};
ghost use Rattle.server_run.specs.Runs.{Prints};
ghost use Rattle.server_run.specs.Statuses.{cut_short, IsUnprinted, EndsPrinted};

use crate::course::{Course, NOTHING, run_alone, run_beside};
use crate::opening::{Begun, open};
use book_opening::write_all;
use journal_opening::Refused;
use outside::{Disk, Failed, Gate, Sink, Source, Wire};
use server_words::{Counts, Status, printed};
use std::alloc::Global;
use std::convert::AsStr;
use std::sync::Wait;
use std::thread::Threads;
use zbx_types::{Many, Numbered, OutOfMemory, Text};

/// What a run answers.
#[derive(Drop)]
pub struct Ended<D, O> {
    /// How it ended.
    pub status: Status,
    /// Whether its opening went well, so that it took events.
    pub began: bool,
    /// The disk of the journal that was handed in.
    pub disk: D,
    /// The outbox that was handed in.
    pub outbox: O,
    /// All entries behind the journal's base, in the order of their numbers. Where that is empty, entry 1 holds a
    /// configuration's text. The last entry that holds one holds that of the run; where none does, the base does. Where
    /// the run didn't begin they are none, or those that its journal kept, or these with the configuration behind them.
    pub entries: Many<Numbered>,
}

/// Runs up to the printed line.
fn go<S: Source, W: Wire, D: Disk, O: Sink>(
    alloc: Global,
    words: &[Text],
    config: &mut S,
    wire: &mut W,
    disk: D,
    outbox: O,
) -> Course<D, O>
    ensures line { IsUpToLine words.now
        (record {
          source = S.left config.old;
          source_faults = S.faults config.old;
          wire = W.tells wire.old;
          disk = D.tells disk;
          outbox = O.tells outbox;
        }) (record {
          source = S.left config.new;
          source_faults = S.faults config.new;
          wire = W.tells wire.new;
          disk = D.tells result.disk;
          outbox = O.tells result.outbox;
        }) result.began result.entries result.counts result.status }
    ensures unread { plan_of words.now ≡ None → config.new ≡ config.old }
    ensures untouched { result.began ≡ false → (wire.new ≡ wire.old) × IsLeft (O.tells outbox) (O.tells result.outbox) }
{
    let Begun {
        turns,
        syncers: _,
        epochs,
        front,
    } = match open(alloc, words, config, disk) {
        Ok(begun) => begun,
        Err(refused) => {
            let Refused {
                status,
                disk,
                entries,
            } = refused;
            return Course {
                status,
                began: false,
                counts: NOTHING,
                disk,
                outbox,
                entries,
            };
        }
    };
    run_alone(alloc, turns, epochs, wire, front, outbox)
}

/// Runs beside syncers up to the printed line.
fn go_beside<S, W, D, O, R, G>(
    rt: &R,
    alloc: Global,
    words: &[Text],
    config: &mut S,
    wire: &mut W,
    disk: D,
    outbox: O,
    gate: &G,
) -> Course<D, O>
where
    S: Source,
    W: Wire,
    D: Disk,
    O: Sink + Send,
    R: Threads + Wait + Sync,
    G: Gate + Sync,
    ensures line { IsUpToLine words.now
        (record {
          source = S.left config.old;
          source_faults = S.faults config.old;
          wire = W.tells wire.old;
          disk = D.tells disk;
          outbox = O.tells outbox;
        }) (record {
          source = S.left config.new;
          source_faults = S.faults config.new;
          wire = W.tells wire.new;
          disk = D.tells result.disk;
          outbox = O.tells result.outbox;
        }) result.began result.entries result.counts result.status }
    ensures unread { plan_of words.now ≡ None → config.new ≡ config.old }
    ensures untouched { result.began ≡ false → (wire.new ≡ wire.old) × IsLeft (O.tells outbox) (O.tells result.outbox) }
{
    let Begun {
        turns,
        syncers,
        epochs,
        front,
    } = match open(alloc, words, config, disk) {
        Ok(begun) => begun,
        Err(refused) => {
            let Refused {
                status,
                disk,
                entries,
            } = refused;
            return Course {
                status,
                began: false,
                counts: NOTHING,
                disk,
                outbox,
                entries,
            };
        }
    };
    run_beside(rt, alloc, syncers, turns, epochs, wire, front, outbox, gate)
}

/// Prints the line of a status, and answers how the run ended.
#[tactic(auto, using(crate::proofs::Runs::printed_all, crate::proofs::Runs::printed_cut, crate::proofs::Runs::printed_none))]
fn report<P: Sink>(alloc: Global, status: Status, counts: &Counts, print: &mut P) -> Status
    requires { IsUnprinted status }
    ensures ends { EndsPrinted status result }
    ensures print { result ≡ Status.PrintFault → Rose (P.tells print.old).faults (P.tells print.new).faults }
    ensures prints { Prints result counts.now (P.tells print.old) (P.tells print.new) }
{
    let Ok(line) = printed(alloc, &status, counts) else {
        return Status::OutOfMemory;
    };
    match write_all(print, line.as_bytes()) {
        Ok(()) => status,
        Err(Failed) => cut_short(status),
    }
}

/// What a run ends with whose line couldn't be printed.
fn cut_short(status: Status) -> Status
    ensures { result ≡ cut_short status }
{
    match status {
        Status::Ok => Status::PrintFault,
        other => other,
    }
}

/// Runs the server on one thread: reads the configuration, opens the journal, takes the wire's events, journals their
/// entries on the disk, answers their senders, writes the lines of their records to the outbox and prints one line. It
/// reads at most 16,777,217 bytes of the configuration, takes at most as many events as the plan of the words allows,
/// and always returns.
///
/// Where the journal kept entries the run goes on behind them. The bytes that the outbox holds are taken for the first
/// of their lines, and those that it lacks are written first.
///
/// A journal may begin with a base, the state that stands in it in place of the entries up to its number. The run goes
/// on behind it as if it had read these: it has the base's number, moment, last Tick and configuration, the histories
/// and what the steps of the items remember, and the open problems. The first bytes of the outbox, as many as the lines
/// of those entries have, stay as they are, and the lines of the entries behind the base stand behind them.
///
/// The configuration is journaled as entry 1, at moment 0. Where the journal kept one, in an entry or in its base, and
/// the text of the last one that it kept isn't that of the source, byte for byte, the changed configuration is
/// journaled behind the kept entries, as an entry and a group of its own, at the moment of the last of them, or of the
/// base. It is in force from there on: items and triggers go on that are in both configurations, by their names, and
/// problems that it leaves no trigger for are closed, as the lines of this entry tell. The entries before it stay those
/// of the configurations before it.
///
/// # Statuses
///
/// `Usage`, `SourceFault`, `ConfigRefused`, `PatternRefused` and `PatternTooLarge`, and then `NotOurs`, `Unfinished`,
/// `Damaged`, `PatternRefused` and `PatternTooLarge` of a configuration that the journal kept, `OutboxBehind`,
/// `OutboxAhead` and `OutboxDiffers`, end the opening: no event was taken, and wire and outbox are as they were.
/// `Unfinished` comes where the journal is a copy that wasn't made to its end. `Damaged` comes too where the text of a
/// kept configuration is refused, or a kept entry doesn't fit the configuration in force where it stands, and at 8
/// where no run can begin with the base. `OutboxBehind` comes where the outbox holds fewer bytes than the base's lines.
/// `Ok` comes where the wire was read to its end. `TurnLimit` comes where as many events as the plan allows were taken
/// and none closed the wire. `Full` comes where the next group would have made the journal larger than the plan allows,
/// or than 1,073,741,824 bytes, that of a changed configuration too, which ends the opening. `DiskFault`, `WireFault`,
/// `OutboxFault` and `PrintFault` come where that object failed. `OutOfMemory` may come wherever memory is taken.
pub fn run_single<S: Source, W: Wire, D: Disk, O: Sink, P: Sink>(
    alloc: Global,
    words: &[Text],
    config: &mut S,
    wire: &mut W,
    disk: D,
    outbox: O,
    print: &mut P,
) -> Ended<D, O>
    // What holds of a whole run is `IsRun`, field by field.
    ensures run { IsRun words.now
        (record {
          source = S.left config.old;
          source_faults = S.faults config.old;
          wire = W.tells wire.old;
          disk = D.tells disk;
          outbox = O.tells outbox;
        }) (record {
          source = S.left config.new;
          source_faults = S.faults config.new;
          wire = W.tells wire.new;
          disk = D.tells result.disk;
          outbox = O.tells result.outbox;
        }) (P.tells print.old) (P.tells print.new) result.began result.entries result.status }

    // Where the words have no plan nothing was read, and a run that hasn't begun left its wire and its outbox alone.
    ensures unread { plan_of words.now ≡ None → config.new ≡ config.old }
    ensures untouched { result.began ≡ false → (wire.new ≡ wire.old) × IsLeft (O.tells outbox) (O.tells result.outbox) }
{
    let course = go(alloc, words, config, wire, disk, outbox);
    let status = report(alloc, course.status, &course.counts, print);
    Ended {
        status,
        began: course.began,
        disk: course.disk,
        outbox: course.outbox,
        entries: course.entries,
    }
}

/// Runs the server as [`run_single`] does, while as many history syncers as the plan says work entries out, each in a
/// thread of its own. Where the plan says 0, or no thread can be run_alone, this thread does all. If it returns, the
/// same is true of it as of `run_single`, whatever the threads do and when.
///
/// A syncer calls the gate, with its number from 1 on and the number of the first entry, between taking an order and
/// working it out.
pub fn run_syncers<S, W, D, O, P, R, G>(
    rt: &R,
    alloc: Global,
    words: &[Text],
    config: &mut S,
    wire: &mut W,
    disk: D,
    outbox: O,
    print: &mut P,
    gate: &G,
) -> Ended<D, O>
where
    S: Source,
    W: Wire,
    D: Disk,
    O: Sink + Send,
    P: Sink,
    R: Threads + Wait + Sync,
    G: Gate + Sync,
    // What holds of a whole run is `IsRun`, field by field.
    ensures run { IsRun words.now
        (record {
          source = S.left config.old;
          source_faults = S.faults config.old;
          wire = W.tells wire.old;
          disk = D.tells disk;
          outbox = O.tells outbox;
        }) (record {
          source = S.left config.new;
          source_faults = S.faults config.new;
          wire = W.tells wire.new;
          disk = D.tells result.disk;
          outbox = O.tells result.outbox;
        }) (P.tells print.old) (P.tells print.new) result.began result.entries result.status }

    // Where the words have no plan nothing was read, and a run that hasn't begun left its wire and its outbox alone.
    ensures unread { plan_of words.now ≡ None → config.new ≡ config.old }
    ensures untouched { result.began ≡ false → (wire.new ≡ wire.old) × IsLeft (O.tells outbox) (O.tells result.outbox) }
{
    let course = go_beside(rt, alloc, words, config, wire, disk, outbox, gate);
    let status = report(alloc, course.status, &course.counts, print);
    Ended {
        status,
        began: course.began,
        disk: course.disk,
        outbox: course.outbox,
        entries: course.entries,
    }
}
