//! Documents of media.

use alert_media::{Media, MediaError, Medium};
use std::alloc::Global;
use std::convert::AsStr;
use std::test::Fail;
use zbx_types::{OutOfMemory, Text};

/// The media of a document, or the pointer to its first fault.
fn read(alloc: Global, document: &str) -> Result<Result<Media, Text>, OutOfMemory> {
    let command = Text::of(alloc, "/by/default")?;
    match Media::read(alloc, document.as_bytes(), &command, 7) {
        Ok(media) => Ok(Ok(media)),
        Err(MediaError::Refused { path }) => Ok(Err(path)),
        Err(MediaError::OutOfMemory) => Err(OutOfMemory),
    }
}

/// Whether a document is refused at this pointer.
fn is_refused_at(alloc: Global, document: &str, pointer: &str) -> Result<bool, OutOfMemory> {
    match read(alloc, document)? {
        Ok(_) => Ok(false),
        Err(path) => Ok(path.as_str() == pointer),
    }
}

/// Whether an entry says this.
fn says(medium: Option<&Medium>, command: &str, attempts: u32, interval: u32) -> bool {
    match medium {
        Some(medium) => {
            medium.command.as_str() == command
                && medium.attempts == attempts
                && medium.interval == interval
        }
        None => false,
    }
}

/// Whether the media of a document have two entries, one of them with what holds where nothing is said.
fn are_read(alloc: Global, document: &str) -> Result<bool, OutOfMemory> {
    let Ok(media) = read(alloc, document)? else {
        return Ok(false);
    };
    let ops = says(media.entry(&Text::of(alloc, "ops")?), "/mail", 5, 60);
    let boss = says(media.entry(&Text::of(alloc, "boss")?), "/call", 3, 10);
    let none = media.entry(&Text::of(alloc, "other")?).is_none();
    Ok(ops && boss && none && media.command.as_str() == "/by/default" && media.attempts == 7)
}

#[test]
fn entries_are_read_with_what_holds_where_nothing_is_said(rt: HostRuntime) -> Result<(), Fail> {
    let document =
        r#"{"media":[{"recipient":"ops","command":"/mail","attempts":5,"interval":"1m"},{"recipient":"boss","command":"/call"}]}"#;
    assert!(rt; are_read(rt.alloc(), document)?);
    Ok(())
}

#[test]
fn a_document_is_refused_at_its_first_member_at_fault(rt: HostRuntime) -> Result<(), Fail> {
    let alloc = rt.alloc();
    let twice = r#"{"media":[{"recipient":"a","command":"c"},{"recipient":"a","command":""}]}"#;
    assert!(rt; is_refused_at(alloc, twice, "/media/1/recipient")?);
    let long = r#"{"media":[{"recipient":"a","command":"c","attempts":3,"interval":"61m"}]}"#;
    assert!(rt; is_refused_at(alloc, long, "/media/0/interval")?);
    assert!(rt; is_refused_at(alloc, "{}", "/media")?);
    assert!(rt; is_refused_at(alloc, "no JSON", "")?);
    Ok(())
}
