//! From words to a plan.

ghost use Rattle.std.specs.Prelude.{◌≡◌, [], IfOk, IsErrOf, Some, None, option_and_then, unwrap_or, codes};
ghost use Rattle.clap.specs.Words.{found_of, first_of, one_of, rows_of};
ghost use Rattle.server_words.specs.Words.{IsWithin, plan_of, alerts_plan_of, checkpoint_plan_of, plan_for, plan_in, run_texts, job_texts, plan_with, mode_of, is_mode_of, number_of, within, number_in, numbers_in, has_needed};

use crate::command::{
    MOST_ATTEMPTS, MOST_ENTRIES, MOST_SESSIONS, MOST_SYNCERS, MOST_TURNS, MOST_VALUES, command,
};
use crate::words::{Call, Mode, Plan, PlanError};
use clap::ArgMatches;
use clap::error::ErrorKind;
use std::alloc::Global;
use zbx_types::{OutOfMemory, Text};

/// The plan of a list of words, which stand behind the program's name.
///
/// The words are `--name value` or `--name=value`, each option at most once, in any order. `--mode` is `feed`, `serve` or
/// `workload`. The first two need `--config`, a path; feed needs `--script`, a path, and serve needs `--listen`, an
/// address and port. `--journal` is a path, `--outbox` a path or `-`, `--syncers` is 0 to 16, `--turns` 1 to
/// 1,000,000,000, `--max-entries` 1 to 4,000,000, `--number` 0 to 2^64 - 1, and `--values` 1 to 1,000,000. What a mode
/// doesn't need it may have, and so may it have what [`alerts_plan`] and [`checkpoint_plan`] need.
///
/// [`PlanError::Usage`] comes exactly where `clap` doesn't take the words as this command's, or the mode is another one
/// or lacks what it needs. [`PlanError::OutOfMemory`] where there is no room for the command or for the plan.
pub fn plan(alloc: Global, words: &[Text]) -> Result<Plan, PlanError>
    ensures ok { IfOk result (λ plan. plan_of words.now ≡ Some plan) }
    ensures within { IfOk result IsWithin }
    ensures usage { IsErrOf result PlanError.Usage → plan_of words.now ≡ None }
{
    plan_for(Call::Run, alloc, words)
}

/// The plan of a list of words for alerts.
///
/// `--mode` is `alerts`. It needs `--outbox` and `--progress`, which are paths, the first not `-`, and `--command`, a
/// program. `--attempts` is 1 to 100, `--sessions` 1 to 16, and `--media` is a path. Usage and OutOfMemory come as with
/// [`plan`].
pub fn alerts_plan(alloc: Global, words: &[Text]) -> Result<Plan, PlanError>
    ensures ok { IfOk result (λ plan. alerts_plan_of words.now ≡ Some plan) }
    ensures within { IfOk result IsWithin }
    ensures usage { IsErrOf result PlanError.Usage → alerts_plan_of words.now ≡ None }
{
    plan_for(Call::Alerting, alloc, words)
}

/// The plan of a list of words for a copy of a journal.
///
/// `--mode` is `checkpoint`. It needs `--journal`, the path of the journal, and `--into`, that of the new file. Usage and
/// OutOfMemory come as with [`plan`].
pub fn checkpoint_plan(alloc: Global, words: &[Text]) -> Result<Plan, PlanError>
    ensures ok { IfOk result (λ plan. checkpoint_plan_of words.now ≡ Some plan) }
    ensures within { IfOk result IsWithin }
    ensures usage { IsErrOf result PlanError.Usage → checkpoint_plan_of words.now ≡ None }
{
    plan_for(Call::Copying, alloc, words)
}

/// The plan of a list of words for a call.
fn plan_for(call: Call, alloc: Global, words: &[Text]) -> Result<Plan, PlanError>
    ensures ok { IfOk result (λ plan. plan_for call words.now ≡ Some plan) }
    ensures within { IfOk result IsWithin }
    ensures usage { IsErrOf result PlanError.Usage → plan_for call words.now ≡ None }
{
    let Ok(command) = command(alloc) else {
        return Err(PlanError::OutOfMemory);
    };
    match command.try_get_matches_from(words) {
        Ok(matches) => planned(call, alloc, &matches),
        Err(error) => match error.kind() {
            ErrorKind::OutOfMemory => Err(PlanError::OutOfMemory),
            _ => Err(PlanError::Usage),
        },
    }
}

/// The plan that the options ask for.
fn planned(call: Call, alloc: Global, matches: &ArgMatches) -> Result<Plan, PlanError>
    ensures ok { IfOk result (λ plan. plan_in call (rows_of (found_of matches.now)) ≡ Some plan) }
    ensures usage { IsErrOf result PlanError.Usage → plan_in call (rows_of (found_of matches.now)) ≡ None }
{
    let Some(mode) = mode_in(matches) else {
        return Err(PlanError::Usage);
    };
    if !is_mode_of(call, mode) || !has_needed(mode, matches) {
        return Err(PlanError::Usage);
    }
    let Some(numbers) = numbers_in(matches) else {
        return Err(PlanError::Usage);
    };
    match plan_with(alloc, matches, mode, numbers) {
        Ok(plan) => Ok(plan),
        Err(OutOfMemory) => Err(PlanError::OutOfMemory),
    }
}

/// The mode of this name.
fn mode_of(name: &str) -> Option<Mode>
    ensures { result ≡ mode_of name.now }
{
    match name {
        "feed" => Some(Mode::Feed),
        "serve" => Some(Mode::Serve),
        "workload" => Some(Mode::Workload),
        "alerts" => Some(Mode::Alerts),
        "checkpoint" => Some(Mode::Checkpoint),
        _ => None,
    }
}

/// Whether a mode is one of a call's.
fn is_mode_of(call: Call, mode: Mode) -> bool
    ensures { result ≡ is_mode_of call mode }
{
    match (call, mode) {
        (Call::Run, Mode::Feed | Mode::Serve | Mode::Workload) => true,
        (Call::Run, Mode::Alerts | Mode::Checkpoint) => false,
        (Call::Alerting, Mode::Alerts) => true,
        (Call::Alerting, Mode::Feed | Mode::Serve | Mode::Workload | Mode::Checkpoint) => false,
        (Call::Copying, Mode::Checkpoint) => true,
        (Call::Copying, Mode::Feed | Mode::Serve | Mode::Workload | Mode::Alerts) => false,
    }
}

/// The mode that the options name.
#[tactic(auto, using(crate::proofs::Rows::text_of_rows))]
fn mode_in(matches: &ArgMatches) -> Option<Mode>
    ensures { result ≡ option_and_then mode_of (first_of (codes "mode") (rows_of (found_of matches.now))) }
{
    mode_of(matches.get_str("mode")?)
}

/// Whether what a mode needs is there.
#[tactic(auto, using(crate::proofs::Rows::text_of_rows))]
fn has_needed(mode: Mode, matches: &ArgMatches) -> bool
    ensures { result ≡ has_needed mode (rows_of (found_of matches.now)) }
{
    match mode {
        Mode::Feed => matches.get_str("config").is_some() && matches.get_str("script").is_some(),
        Mode::Serve => matches.get_str("config").is_some() && matches.get_str("listen").is_some(),
        Mode::Workload => true,
        Mode::Alerts => {
            matches.get_str("progress").is_some()
                && matches.get_str("command").is_some()
                && matches.get_str("outbox").unwrap_or("-") != "-"
        }
        Mode::Checkpoint => {
            matches.get_str("journal").is_some() && matches.get_str("into").is_some()
        }
    }
}

/// The number that the text of an option writes.
fn read_number(matches: &ArgMatches, name: &str) -> Option<u64>
    ensures { result ≡ option_and_then (number_of 64) (one_of name.now (rows_of (found_of matches.now))) }
{
    matches.get_one::<u64>(name)
}

/// The number that the text of an option writes, as 32 bits hold it.
fn read_narrow_number(matches: &ArgMatches, name: &str) -> Option<u32>
    ensures { result ≡ option_and_then (number_of 32) (one_of name.now (rows_of (found_of matches.now))) }
{
    matches.get_one::<u32>(name)
}

/// A number from the least to the most.
fn within(number: u64, least: u64, most: u64) -> Option<u64>
    ensures { result ≡ within least most number }
{
    if least <= number && number <= most {
        Some(number)
    } else {
        None
    }
}

/// The number of an option, from the least to the most.
fn number_in(matches: &ArgMatches, name: &str, least: u64, most: u64) -> Option<u64>
    ensures { result ≡ number_in 64 least most name.now (rows_of (found_of matches.now)) }
{
    within(read_number(matches, name)?, least, most)
}

/// The number of an option, from the least to the most, as 32 bits hold it.
fn narrow_number_in(matches: &ArgMatches, name: &str, least: u32, most: u32) -> Option<u32>
    ensures { result ≡ number_in 32 least most name.now (rows_of (found_of matches.now)) }
{
    let number = read_narrow_number(matches, name)?;
    if least <= number && number <= most {
        Some(number)
    } else {
        None
    }
}

/// The numbers of a plan.
#[derive(Clone, Copy)]
struct Numbers {
    syncers: u32,
    turns: u64,
    max_entries: u64,
    number: u64,
    attempts: u32,
    sessions: u32,
    values: u64,
}

/// The numbers of the options.
fn numbers_in(matches: &ArgMatches) -> Option<Numbers>
    ensures { result ≡ numbers_in (rows_of (found_of matches.now)) }
{
    Some(Numbers {
        syncers: narrow_number_in(matches, "syncers", 0, MOST_SYNCERS)?,
        turns: number_in(matches, "turns", 1, MOST_TURNS)?,
        max_entries: number_in(matches, "max-entries", 1, MOST_ENTRIES)?,
        number: number_in(matches, "number", 0, u64::MAX)?,
        attempts: narrow_number_in(matches, "attempts", 1, MOST_ATTEMPTS)?,
        sessions: narrow_number_in(matches, "sessions", 1, MOST_SESSIONS)?,
        values: number_in(matches, "values", 1, MOST_VALUES)?,
    })
}

/// A copy of the text of an option.
#[tactic(auto, using(crate::proofs::Rows::text_of_rows))]
fn text_in(alloc: Global, matches: &ArgMatches, name: &str) -> Result<Option<Text>, OutOfMemory>
    ensures { IfOk result (λ made. made ≡ first_of name.now (rows_of (found_of matches.now))) }
{
    match matches.get_str(name) {
        Some(text) => Ok(Some(Text::of(alloc, text)?)),
        None => Ok(None),
    }
}

/// Copies of the texts of two options.
fn texts_in(
    alloc: Global,
    matches: &ArgMatches,
    one: &str,
    other: &str,
) -> Result<(Option<Text>, Option<Text>), OutOfMemory>
    ensures one { IfOk result (λ made. made.0 ≡ first_of one.now (rows_of (found_of matches.now))) }
    ensures other { IfOk result (λ made. made.1 ≡ first_of other.now (rows_of (found_of matches.now))) }
{
    let first = text_in(alloc, matches, one)?;
    let second = text_in(alloc, matches, other)?;
    Ok((first, second))
}

/// A copy of the outbox's path.
fn outbox_in(alloc: Global, matches: &ArgMatches) -> Result<Text, OutOfMemory>
    ensures { IfOk result (λ made. made ≡ unwrap_or (first_of (codes "outbox") (rows_of (found_of matches.now))) []) }
{
    Ok(text_in(alloc, matches, "outbox")?.unwrap_or(Text::new(alloc)))
}

/// The texts of a run.
#[derive(Drop)]
struct RunTexts {
    config: Option<Text>,
    script: Option<Text>,
    listen: Option<Text>,
    journal: Option<Text>,
}

/// Copies of the texts of a run.
fn run_texts(alloc: Global, matches: &ArgMatches) -> Result<RunTexts, OutOfMemory>
    ensures { IfOk result (λ made. made ≡ run_texts (rows_of (found_of matches.now))) }
{
    let sources = texts_in(alloc, matches, "config", "script")?;
    match texts_in(alloc, matches, "listen", "journal") {
        Ok((listen, journal)) => Ok(RunTexts {
            config: sources.0,
            script: sources.1,
            listen,
            journal,
        }),
        Err(OutOfMemory) => {
            drop(sources);
            Err(OutOfMemory)
        }
    }
}

/// The texts of alerts and of a copy.
#[derive(Drop)]
struct JobTexts {
    progress: Option<Text>,
    command: Option<Text>,
    media: Option<Text>,
    into: Option<Text>,
}

/// Copies of the texts of alerts and of a copy.
fn job_texts(alloc: Global, matches: &ArgMatches) -> Result<JobTexts, OutOfMemory>
    ensures { IfOk result (λ made. made ≡ job_texts (rows_of (found_of matches.now))) }
{
    let working = texts_in(alloc, matches, "progress", "command")?;
    match texts_in(alloc, matches, "media", "into") {
        Ok((media, into)) => Ok(JobTexts {
            progress: working.0,
            command: working.1,
            media,
            into,
        }),
        Err(OutOfMemory) => {
            drop(working);
            Err(OutOfMemory)
        }
    }
}

/// The plan with this mode and these numbers, and with copies of the options' texts.
fn plan_with(
    alloc: Global,
    matches: &ArgMatches,
    mode: Mode,
    numbers: Numbers,
) -> Result<Plan, OutOfMemory>
    ensures { IfOk result (λ plan. plan ≡ plan_with (rows_of (found_of matches.now)) mode numbers) }
{
    let outbox = outbox_in(alloc, matches)?;
    let of_run = match run_texts(alloc, matches) {
        Ok(texts) => texts,
        Err(OutOfMemory) => {
            drop(outbox);
            return Err(OutOfMemory);
        }
    };
    match job_texts(alloc, matches) {
        Ok(of_job) => Ok(Plan {
            mode,
            config: of_run.config,
            script: of_run.script,
            listen: of_run.listen,
            journal: of_run.journal,
            outbox,
            syncers: numbers.syncers,
            turns: numbers.turns,
            max_entries: numbers.max_entries,
            number: numbers.number,
            values: numbers.values,
            progress: of_job.progress,
            command: of_job.command,
            attempts: numbers.attempts,
            media: of_job.media,
            into: of_job.into,
            sessions: numbers.sessions,
        }),
        Err(OutOfMemory) => {
            drop(of_run);
            drop(outbox);
            Err(OutOfMemory)
        }
    }
}
