//! The command of the program, as `clap` reads it.

ghost use Rattle.std.specs.Prelude.{◌≡◌, IfOk, false};
ghost use Rattle.clap.specs.Words.{app_of, rule_of};
ghost use Rattle.server_words.specs.Words.{needed, option, with_default, number, input_app, text_app, limit_app, server_app};

use clap::builder::ValueParser;
use clap::{Arg, Command};
use std::alloc::{AllocError, Global};

/// The most syncers that a plan may ask for.
pub(crate) const MOST_SYNCERS: u32 = 16;

/// The most turns that a plan may ask for.
pub(crate) const MOST_TURNS: u64 = 1_000_000_000;

/// The most entries that a plan may ask for.
pub(crate) const MOST_ENTRIES: u64 = 4_000_000;

/// The most tries of a message that a plan may ask for.
pub(crate) const MOST_ATTEMPTS: u32 = 100;

/// The most alert sessions that a plan may ask for.
pub(crate) const MOST_SESSIONS: u32 = 16;

/// The most values of a workload that a plan may ask for.
pub(crate) const MOST_VALUES: u64 = 1_000_000;

/// An option with a value.
fn option<'a>(alloc: Global, name: &'a str) -> Arg<'a>
    ensures rule { rule_of result ≡ option name.entry.now }
    ensures local { result.global ≡ false }
{
    Arg::new(alloc, name).long(name)
}

/// One that has to be there.
fn needed<'a>(alloc: Global, name: &'a str) -> Arg<'a>
    ensures rule { rule_of result ≡ needed name.entry.now }
    ensures local { result.global ≡ false }
{
    Arg::new(alloc, name).long(name).required(true)
}

/// One that has this value where it isn't there.
fn with_default<'a>(alloc: Global, name: &'a str, value: &'a str) -> Arg<'a>
    ensures rule { rule_of result ≡ with_default name.entry.now value.entry.now }
    ensures local { result.global ≡ false }
{
    Arg::new(alloc, name).long(name).default_value(value)
}

/// One whose value is a number from the least to the most.
fn number<'a>(alloc: Global, name: &'a str, value: &'a str, least: u64, most: u64) -> Arg<'a>
    ensures rule { rule_of result ≡ number name.entry.now value.entry.now least most }
    ensures local { result.global ≡ false }
{
    Arg::new(alloc, name)
        .long(name)
        .default_value(value)
        .value_parser(ValueParser::unsigned(least, most))
}

/// The command with its mode and the texts of a run.
fn input_command<'a>(alloc: Global) -> Result<Command<'a>, AllocError>
    ensures { IfOk result (λ command. app_of command ≡ input_app) }
{
    Command::new(alloc, "zabbix_server")
        .no_binary_name(true)
        .arg(needed(alloc, "mode"))?
        .arg(option(alloc, "config"))?
        .arg(option(alloc, "listen"))?
        .arg(option(alloc, "script"))?
        .arg(option(alloc, "journal"))
}

/// The command with all its texts.
fn text_command<'a>(alloc: Global) -> Result<Command<'a>, AllocError>
    ensures { IfOk result (λ command. app_of command ≡ text_app) }
{
    input_command(alloc)?
        .arg(option(alloc, "progress"))?
        .arg(option(alloc, "command"))?
        .arg(option(alloc, "media"))?
        .arg(option(alloc, "into"))?
        .arg(with_default(alloc, "outbox", "-"))
}

/// The command with its texts, and the numbers that limit a run.
fn limit_command<'a>(alloc: Global) -> Result<Command<'a>, AllocError>
    ensures { IfOk result (λ command. app_of command ≡ limit_app) }
{
    text_command(alloc)?
        .arg(number(alloc, "syncers", "4", 0, MOST_SYNCERS as u64))?
        .arg(number(alloc, "turns", "1000000000", 1, MOST_TURNS))?
        .arg(number(alloc, "max-entries", "4000000", 1, MOST_ENTRIES))
}

/// The command: its texts and its numbers.
pub(crate) fn command<'a>(alloc: Global) -> Result<Command<'a>, AllocError>
    ensures { IfOk result (λ command. app_of command ≡ server_app) }
{
    limit_command(alloc)?
        .arg(number(alloc, "number", "1", 0, u64::MAX))?
        .arg(number(alloc, "attempts", "3", 1, MOST_ATTEMPTS as u64))?
        .arg(number(alloc, "sessions", "1", 1, MOST_SESSIONS as u64))?
        .arg(number(alloc, "values", "1000", 1, MOST_VALUES))
}
