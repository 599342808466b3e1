//! The macros of messages.

ghost use Rattle.std.specs.Prelude.{◌≡◌, option_map};
ghost use Rattle.std.specs.Option.{option_or};
ghost use Rattle.event_text.specs.Words.{event_word, kind_word, begin_word, end_word, place_word, word_at, is_told, told_at};

use crate::braces::behind;
use zbx_types::Moment;

/// A macro of messages.
#[derive(Clone, Copy)]
pub(crate) enum Word {
    /// The event.
    Id,
    /// The event's name.
    Name,
    /// The name of its severity.
    Severity,
    /// Its tags.
    Tags,
    /// The date on which it began.
    Date,
    /// The time at which it began.
    Time,
    /// The date on which it ended.
    RecoveryDate,
    /// The time at which it ended.
    RecoveryTime,
    /// Its host.
    Host,
    /// The name of its trigger, which is the event's.
    Trigger,
}

/// Which event it is.
#[tactic(auto, unfolding(crate::specs::Words::event_word))]
fn event_word(text: &str) -> Option<(Word, &str)>
    ensures { option_map (λ r. (r.0, r.1.now)) result ≡ event_word text.now }
{
    if let Some(rest) = behind(text, "EVENT.ID}") {
        return Some((Word::Id, rest));
    }
    let rest = behind(text, "EVENT.NAME}")?;
    Some((Word::Name, rest))
}

/// What is known of it.
#[tactic(auto, unfolding(crate::specs::Words::kind_word))]
fn kind_word(text: &str) -> Option<(Word, &str)>
    ensures { option_map (λ r. (r.0, r.1.now)) result ≡ kind_word text.now }
{
    if let Some(rest) = behind(text, "EVENT.SEVERITY}") {
        return Some((Word::Severity, rest));
    }
    let rest = behind(text, "EVENT.TAGS}")?;
    Some((Word::Tags, rest))
}

/// When it began.
#[tactic(auto, unfolding(crate::specs::Words::begin_word))]
fn begin_word(text: &str) -> Option<(Word, &str)>
    ensures { option_map (λ r. (r.0, r.1.now)) result ≡ begin_word text.now }
{
    if let Some(rest) = behind(text, "EVENT.DATE}") {
        return Some((Word::Date, rest));
    }
    let rest = behind(text, "EVENT.TIME}")?;
    Some((Word::Time, rest))
}

/// When it ended.
#[tactic(auto, unfolding(crate::specs::Words::end_word))]
fn end_word(text: &str) -> Option<(Word, &str)>
    ensures { option_map (λ r. (r.0, r.1.now)) result ≡ end_word text.now }
{
    if let Some(rest) = behind(text, "EVENT.RECOVERY.DATE}") {
        return Some((Word::RecoveryDate, rest));
    }
    let rest = behind(text, "EVENT.RECOVERY.TIME}")?;
    Some((Word::RecoveryTime, rest))
}

/// Where it is.
#[tactic(auto, unfolding(crate::specs::Words::place_word))]
fn place_word(text: &str) -> Option<(Word, &str)>
    ensures { option_map (λ r. (r.0, r.1.now)) result ≡ place_word text.now }
{
    if let Some(rest) = behind(text, "HOST.NAME}") {
        return Some((Word::Host, rest));
    }
    let rest = behind(text, "TRIGGER.NAME}")?;
    Some((Word::Trigger, rest))
}

/// When it ended, or where it is.
fn late_word(text: &str) -> Option<(Word, &str)>
    ensures { option_map (λ r. (r.0, r.1.now)) result ≡ option_or (end_word text.now) (place_word text.now) }
{
    match end_word(text) {
        Some(found) => Some(found),
        None => place_word(text),
    }
}

/// When it began or ended, or where it is.
fn time_word(text: &str) -> Option<(Word, &str)>
    ensures { option_map (λ r. (r.0, r.1.now)) result ≡ option_or (begin_word text.now) (option_or (end_word text.now) (place_word text.now)) }
{
    match begin_word(text) {
        Some(found) => Some(found),
        None => late_word(text),
    }
}

/// Any but which event it is.
fn other_word(text: &str) -> Option<(Word, &str)>
    ensures { option_map (λ r. (r.0, r.1.now)) result ≡ option_or (kind_word text.now) (option_or (begin_word text.now) (option_or (end_word text.now) (place_word text.now))) }
{
    match kind_word(text) {
        Some(found) => Some(found),
        None => time_word(text),
    }
}

/// The macro behind a brace, and what follows it.
#[tactic(auto, unfolding(crate::specs::Words::word_at))]
fn word_at(text: &str) -> Option<(Word, &str)>
    ensures { option_map (λ r. (r.0, r.1.now)) result ≡ word_at text.now }
{
    match event_word(text) {
        Some(found) => Some(found),
        None => other_word(text),
    }
}

/// Whether a macro stands for something in a message of a problem, or of its recovery.
fn is_told(recovered: &Option<Moment>, word: Word) -> bool
    ensures { result ≡ is_told recovered.now word }
{
    match word {
        Word::RecoveryDate | Word::RecoveryTime => recovered.is_some(),
        Word::Id
        | Word::Name
        | Word::Severity
        | Word::Tags
        | Word::Date
        | Word::Time
        | Word::Host
        | Word::Trigger => true,
    }
}

/// The macro behind a brace that stands for something, and what follows it.
#[tactic(auto, unfolding(crate::specs::Words::told_at))]
pub(crate) fn told_at<'a>(recovered: &Option<Moment>, text: &'a str) -> Option<(Word, &'a str)>
    ensures { option_map (λ r. (r.0, r.1.now)) result ≡ told_at recovered.now text.now }
{
    let (word, rest) = word_at(text)?;
    if is_told(recovered, word) {
        return Some((word, rest));
    }
    None
}
