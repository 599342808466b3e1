//! The document of media.

ghost use Rattle.std.specs.Prelude.{◌≡◌, ◌≤◌, ◌++◌, ◌∷◌, [], Ok, All, IfOk, IfErr, option_copied};
ghost use Rattle.serde_json.specs.View.{view};
ghost use Rattle.json_form.specs.Faults.{Gives, GivesAs};
ghost use Rattle.json_form.specs.Places.{place_of, given_or};
ghost use Rattle.alert_media.specs.declared.fault.MediaError.TheVariants as fault;
ghost use Rattle.alert_media.specs.Media.{IsLimited, is_short, short_text, new_recipient, interval_of, medium_of, given, entries_of, media_of, IsFaultOf, entry_of};

use crate::fault::{MediaError, fault_of};
use json_form::{At, Named, Names, Object, ReadError, distinct, parse};
use serde_json::Value;
use std::alloc::Global;
use std::convert::AsStr;
use zbx_types::{Cause, Many, Text, seconds_up_to};

/// The most bytes of a document.
const LONGEST_DOCUMENT: usize = 16_777_216;

/// The longest interval, in seconds.
const LONGEST_INTERVAL: u32 = 3_600;

/// How messages to a recipient are tried.
#[derive(Debug, Drop)]
pub struct Medium {
    /// Whom they are for.
    pub recipient: Text,
    /// The program that is run for each.
    pub command: Text,
    /// The most tries of one, from 1 to 100.
    pub attempts: u32,
    /// How many seconds after a failed try the next may come, up to 3,600.
    pub interval: u32,
}

/// How messages are tried: entries for some recipients, and what holds for all others, at an interval of 10 seconds.
#[derive(Debug, Drop)]
pub struct Media {
    /// The entries, of distinct recipients.
    pub entries: Many<Medium>,
    /// The program that is run for other recipients.
    pub command: Text,
    /// The most tries of a message to one of them.
    pub attempts: u32,
}

/// Whether a text has 1 to 255 bytes.
fn is_short(text: &[u8]) -> bool
    ensures { result ≡ is_short text.now }
{
    1 <= text.len() && text.len() <= 255
}

/// The text at the place, of 1 to 255 bytes.
#[tactic(auto, unfolding(crate::specs::Media::short_text, json_form::specs::Places::text_that))]
fn short_text(alloc: Global, at: &At<'_, '_>) -> Result<Text, ReadError>
    ensures { Gives result (short_text (place_of at.now)) }
{
    let text = at.text(alloc)?;
    if !is_short(text.as_bytes()) {
        return Err(at.refused(alloc, Cause::BadMember));
    }
    Ok(text)
}

/// The recipient at the place, who has no entry yet; from then on he has.
#[tactic(auto, unfolding(crate::specs::Media::new_recipient))]
fn new_recipient(alloc: Global, taken: &mut Names, at: &At<'_, '_>) -> Result<Text, ReadError>
    ensures gives { Gives result (new_recipient taken.old (place_of at.now)) }
    ensures taken { IfOk result (λ name. taken.new ≡ taken.old ++ name ∷ []) }
{
    let name = short_text(alloc, at)?;
    at.free(alloc, taken, name)
}

/// The seconds of the period text at the place.
#[tactic(auto, unfolding(crate::specs::Media::interval_of, json_form::specs::Places::word))]
fn interval(alloc: Global, at: &At<'_, '_>) -> Result<u32, ReadError>
    ensures { Gives result (interval_of (place_of at.now)) }
{
    let Some(text) = at.value.and_then(Value::as_str) else {
        return Err(at.refused(alloc, Cause::BadMember));
    };
    match seconds_up_to(LONGEST_INTERVAL, text.as_bytes()) {
        Some(seconds) => Ok(seconds),
        None => Err(at.refused(alloc, Cause::BadMember)),
    }
}

/// The same, 10 seconds where nothing stands.
#[tactic(auto, unfolding(json_form::specs::Places::given_or))]
fn own_interval(alloc: Global, at: &At<'_, '_>) -> Result<u32, ReadError>
    ensures { Gives result (given_or 10 interval_of (place_of at.now)) }
{
    match at.value {
        Some(_) => interval(alloc, at),
        None => Ok(10),
    }
}

/// The reader of entries.
struct MediumReader;

impl Named for MediumReader {
    type Made = Medium;

    ghost name = { λ m. m.recipient };

    ghost reads = { medium_of };

    #[tactic(auto, unfolding(crate::specs::Media::medium_of))]
    fn read(
        alloc: Global,
        taken: &mut Names,
        path: &str,
        value: &Value,
    ) -> Result<Medium, ReadError> {
        let object = Object::at(alloc, path, value)?;
        let recipient = new_recipient(alloc, taken, &object.member("recipient"))?;
        let command = short_text(alloc, &object.member("command"))?;
        let attempts = object.member("attempts").number_or(alloc, 3, 1, 100)?;
        let interval = own_interval(alloc, &object.member("interval"))?;
        Ok(Medium {
            recipient,
            command,
            attempts,
            interval,
        })
    }
}

/// The place, where something stands there.
#[tactic(auto, unfolding(crate::specs::Media::given))]
fn given<'p, 'v>(alloc: Global, at: &At<'p, 'v>) -> Result<At<'p, 'v>, ReadError>
    ensures { GivesAs place_of result (given (place_of at.now)) }
{
    match at.value {
        Some(_) => Ok(*at),
        None => Err(at.refused(alloc, Cause::BadMember)),
    }
}

/// The entries of a JSON value.
#[tactic(auto, unfolding(crate::specs::Media::entries_of))]
fn entries(alloc: Global, value: &Value) -> Result<Many<Medium>, ReadError>
    ensures { Gives result (entries_of (view value.now)) }
{
    let object = Object::at(alloc, "", value)?;
    let at = given(alloc, &object.member("media"))?;
    distinct::<MediumReader>(alloc, &at)
}

/// The entries of a text.
fn read_entries(alloc: Global, bytes: &[u8]) -> Result<Many<Medium>, ReadError>
    ensures { Gives result (media_of bytes.now) }
{
    let value = parse(alloc, bytes, LONGEST_DOCUMENT)?;
    entries(alloc, &value)
}

impl Media {
    /// The media that a document has, with the command and the attempts of other recipients.
    ///
    /// It is refused exactly where it isn't of its form, with a pointer to the first member at fault: in each entry the
    /// recipient, the command, the attempts, the interval. The pointer is empty where it is no JSON, or has more than
    /// 16,777,216 bytes.
    #[tactic(auto, using(crate::proofs::Limits::media_limited))]
    pub fn read(
        alloc: Global,
        bytes: &[u8],
        command: &Text,
        attempts: u32,
    ) -> Result<Media, MediaError>
        requires { (1 ≤ attempts) × (attempts ≤ 100) }
        ensures entries { IfOk result (λ media. media_of bytes.now ≡ Ok media.entries) }
        ensures limited { IfOk result (λ media. All IsLimited media.entries) }
        ensures others { IfOk result (λ media. (media.command ≡ command.now) × (media.attempts ≡ attempts)) }
        ensures refused { IfErr result (IsFaultOf (media_of bytes.now)) }
    {
        match read_entries(alloc, bytes) {
            Ok(entries) => with_entries(alloc, entries, command, attempts),
            Err(error) => Err(fault_of(error)),
        }
    }

    /// The entry of a recipient.
    pub fn entry(&self, recipient: &Text) -> Option<&Medium>
        ensures { option_copied result ≡ entry_of self.now.entries recipient.now }
    {
        self.entries
            .as_slice()
            .iter()
            .find(|medium| medium.recipient.as_str() == recipient.as_str())
    }
}

/// Media of entries that were read.
fn with_entries(
    alloc: Global,
    entries: Many<Medium>,
    command: &Text,
    attempts: u32,
) -> Result<Media, MediaError>
    ensures made { IfOk result (λ media. media ≡ record { entries = entries; command = command.now; attempts = attempts }) }
    ensures memory { IfErr result (λ error. error ≡ fault.OutOfMemory) }
{
    match command.copy(alloc) {
        Ok(command) => Ok(Media {
            entries,
            command,
            attempts,
        }),
        Err(_) => Err(MediaError::OutOfMemory),
    }
}
