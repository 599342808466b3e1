//! Configurations are made ready, each for the entries that stand behind it.

ghost use Rattle.std.specs.Prelude.{◌≡◌, ◌++◌, ◌∷◌, [], map, Some, All, IfOk, IfErr, OnOk, option_copied};
ghost use Rattle.zbx_types.specs.Ids.{at_id};
ghost use Rattle.pattern_set.specs.Patterns.{IsPattern};
ghost use Rattle.trigger_state.specs.Stages.{first_stage};
ghost use Rattle.journal_opening.specs.Epochs.{earlier, has_text, AreUnready};
ghost use Rattle.journal_opening.specs.Patterns.{IsUnready};

use conf_index::{BuildError, Ready};
use server_words::Status;
use std::alloc::Global;
use zbx_types::{Conf, Many, OutOfMemory, Text, by_id, copy_texts};

/// The path at a place, counted from 1. Each pattern has one.
fn path_at(alloc: Global, paths: &Many<Text>, place: u32) -> Result<Text, OutOfMemory>
    ensures { IfOk result (λ path. at_id paths.now place ≡ Some path) }
{
    match by_id(paths.as_slice(), place) {
        Some(path) => path.copy(alloc),
        None => Err(OutOfMemory),
    }
}

/// Makes a configuration ready.
///
/// # Errors
///
/// `PatternRefused` where a pattern of it is none, and `PatternTooLarge` where one is too large when it is built, each with
/// the path where the pattern is used first; `OutOfMemory` where memory was refused.
pub fn ready_of(alloc: Global, conf: Conf) -> Result<Ready, Status>
    ensures ok { IfOk result (λ ready. ready ≡ first_stage conf) }
    ensures patterns { IfOk result (λ _. All IsPattern conf.patterns) }
    ensures err { IfErr result (IsUnready conf) }
{
    let Ok(paths) = copy_texts(alloc, &conf.pattern_paths) else {
        return Err(Status::OutOfMemory);
    };
    match Ready::build(alloc, conf) {
        Ok(ready) => Ok(ready),
        Err(BuildError::Refused { place }) => match path_at(alloc, &paths, place) {
            Ok(path) => Err(Status::PatternRefused { path }),
            Err(OutOfMemory) => Err(Status::OutOfMemory),
        },
        Err(BuildError::TooLarge { place }) => match path_at(alloc, &paths, place) {
            Ok(path) => Err(Status::PatternTooLarge { path }),
            Err(OutOfMemory) => Err(Status::OutOfMemory),
        },
        Err(BuildError::OutOfMemory) => Err(Status::OutOfMemory),
    }
}

/// Adds a configuration, made ready.
fn put_ready(alloc: Global, epochs: &mut Vec<Ready>, conf: Conf) -> Result<(), Status>
    ensures ok { OnOk result (epochs.new.items ≡ epochs.old.items ++ first_stage conf ∷ []) }
    ensures err { IfErr result (IsUnready conf) }
{
    match ready_of(alloc, conf) {
        Ok(ready) => put(epochs, ready),
        Err(status) => Err(status),
    }
}

/// Adds what is ready.
fn put(epochs: &mut Vec<Ready>, ready: Ready) -> Result<(), Status>
    ensures ok { OnOk result (epochs.new.items ≡ epochs.old.items ++ ready ∷ []) }
    ensures err { IfErr result (λ status. status ≡ Status.OutOfMemory) }
{
    match epochs.push(ready) {
        Ok(()) => Ok(()),
        Err(refused) => {
            drop(refused);
            Err(Status::OutOfMemory)
        }
    }
}

/// Whether there is a configuration, and it has this text.
fn has_text(text: &Text, conf: Option<&Conf>) -> bool
    ensures { result ≡ has_text text.now (option_copied conf.entry) }
{
    match conf {
        Some(conf) => conf.text == *text,
        None => false,
    }
}

/// Configurations without the last one, where that has this text.
fn earlier(text: &Text, confs: Vec<Conf>) -> Vec<Conf>
    ensures { result.items ≡ earlier text.now confs.items }
{
    let mut confs = confs;
    if has_text(text, confs.as_slice().last()) {
        drop(confs.pop());
    }
    confs
}

/// Makes configurations ready, in their order. Where a pattern of one of them isn't taken, the status has the path where
/// it is used first.
pub(crate) fn ready_all(alloc: Global, confs: Vec<Conf>) -> Result<Vec<Ready>, Status>
    ensures ok { IfOk result (λ epochs. epochs.items ≡ map first_stage confs.items) }
    ensures err { IfErr result (AreUnready confs.items) }
{
    let mut epochs = Vec::new(alloc);
    for conf in confs {
        match put_ready(alloc, &mut epochs, conf) {
            Ok(()) => {}
            Err(status) => return Err(status),
        }
    }
    Ok(epochs)
}

/// Makes the configurations that a journal kept ready, in their order, and puts that of the run behind them. It stands
/// in the place of the last one where that has the same text. Where a pattern of one of them isn't taken, the status
/// has the path where it is used first.
#[tactic(auto, using(crate::proofs::MadeReady::earlier_unready))]
pub(crate) fn epochs_of(alloc: Global, confs: Vec<Conf>, ready: Ready) -> Result<Vec<Ready>, Status>
    ensures ok { IfOk result (λ epochs. epochs.items ≡ map first_stage (earlier ready.conf.text confs.items) ++ ready ∷ []) }
    ensures err { IfErr result (AreUnready confs.items) }
{
    let mut epochs = match ready_all(alloc, earlier(&ready.conf().text, confs)) {
        Ok(epochs) => epochs,
        Err(status) => {
            drop(ready);
            return Err(status);
        }
    };
    match put(&mut epochs, ready) {
        Ok(()) => Ok(epochs),
        Err(status) => Err(status),
    }
}
