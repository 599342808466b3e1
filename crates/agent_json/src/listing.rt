//! The items that an agent is to bring.

ghost use Rattle.std.specs.Prelude.{◌≡◌, ◌<◌, ◌++◌, length, true, false, IfOk, OnOk};
ghost use Rattle.zbx_types.specs.Frames.{longest_data};
ghost use Rattle.json_text.specs.Written.{in_quotes};
ghost use Rattle.agent_json.specs.Checks.{is_active_kind, is_check, check_text, told_of, is_first_behind, told, checks_text, framed_within, tells_items};

use json_text::{Tree, put_comma, write};
use std::alloc::Global;
use zbx_types::{Bytes, Conf, Item, ItemKind, LONGEST_DATA, OutOfMemory, Text};

/// The most bytes of data that a frame may have.
const MOST_BYTES: usize = LONGEST_DATA as usize;

/// The bytes of a frame before its data.
const HEADER_BYTES: usize = 13;

/// What a list of items begins with.
const LIST_LEAD: &[u8] = b"{\"response\":\"success\",\"data\":[";

/// Whether agents ask for items of a kind.
fn is_active_kind(kind: ItemKind) -> bool
    ensures { result ≡ is_active_kind kind }
{
    match kind {
        ItemKind::Active => true,
        ItemKind::Trapper | ItemKind::Dependent => false,
    }
}

/// Whether the agent of a host is to bring an item.
fn is_check(item: &Item, host: u32) -> bool
    ensures { result ≡ is_check host item.now }
{
    item.host == host && is_active_kind(item.kind) && item.enabled
}

/// Adds a text in quotes.
fn put_quoted(alloc: Global, body: &mut Bytes, text: &Text) -> Result<(), OutOfMemory>
    ensures { OnOk result (body.new ≡ body.old ++ in_quotes text.now) }
{
    write(&Tree::Words(text.copy(alloc)?), body)
}

/// Adds what an agent is told of an item.
fn put_check(alloc: Global, body: &mut Bytes, item: &Item) -> Result<(), OutOfMemory>
    ensures { OnOk result (body.new ≡ body.old ++ check_text item.now) }
{
    body.extend(b"{\"key\":")?;
    put_quoted(alloc, body, &item.key)?;
    body.extend(b",\"delay\":")?;
    body.push_decimal(u64::from(item.delay))?;
    body.extend(b",\"lastlogsize\":0,\"mtime\":0}")?;
    Ok(())
}

/// Adds what the agent of a host is told of an item, and whether the next one that it is told of would be the first.
fn put_next(
    alloc: Global,
    body: &mut Bytes,
    item: &Item,
    host: u32,
    first: bool,
) -> Result<bool, OutOfMemory>
    ensures text { OnOk result (body.new ≡ body.old ++ told_of host first item.now) }
    ensures first { IfOk result (λ next. next ≡ is_first_behind host first item.now) }
{
    if !is_check(item, host) {
        return Ok(first);
    }
    put_comma(body, first)?;
    put_check(alloc, body, item)?;
    Ok(false)
}

/// Adds what the agent of a host is told of the items, and whether that was all: where it is more than a frame may have,
/// the rest is left out.
#[tactic(auto, using(crate::proofs::Commas::told_more, crate::proofs::Commas::told_longer, crate::proofs::Commas::told_whole))]
fn put_checks(
    alloc: Global,
    body: &mut Bytes,
    items: &[Item],
    host: u32,
) -> Result<bool, OutOfMemory>
    ensures whole { IfOk result (λ whole. whole ≡ true → body.new ≡ body.old ++ told host true items.now) }
    ensures more { IfOk result (λ whole. whole ≡ false → longest_data < length (body.old ++ told host true items.now)) }
{
    let mut first = true;
    for item in items {
        first = put_next(alloc, body, item, host, first)?;
        if body.len() > MOST_BYTES {
            return Ok(false);
        }
    }
    Ok(true)
}

fn framed(alloc: Global, body: &Bytes) -> Result<Option<Bytes>, OutOfMemory>
    ensures { IfOk result (λ bytes. bytes ≡ framed_within body.now) }
{
    if body.len() <= MOST_BYTES {
        let mut bytes = Bytes::new(alloc);
        zbxd_frame::write(body.as_slice(), &mut bytes)?;
        Ok(Some(bytes))
    } else {
        Ok(None)
    }
}

/// What the agent of a host is told, in a frame: key and delay, in seconds, of each active item of the host that is
/// enabled, in the order of the configuration. None where that is more than a frame may have. Its `lastlogsize` and
/// `mtime` are 0, which is of no meaning for items that aren't logs.
///
/// It looks at all items of the configuration, and stops where the text is longer than the data of a frame may be.
///
/// # Errors
///
/// `OutOfMemory` where memory was refused.
#[tactic(auto, using(crate::proofs::Telling::told_listed, crate::proofs::Telling::too_long), unfolding(crate::specs::Checks::checks_text))]
pub fn checks(alloc: Global, conf: &Conf, host: u32) -> Result<Option<Bytes>, OutOfMemory>
    ensures { IfOk result (λ bytes. bytes ≡ framed_within (checks_text conf.now host)) }
{
    let mut body = Bytes::of(alloc, b"{\"response\":\"success\",\"data\":[")?;
    if !put_checks(alloc, &mut body, conf.items.as_slice(), host)? {
        return Ok(None);
    }
    body.extend(b"]}")?;
    framed(alloc, &body)
}

/// Whether a frame tells an agent its items, as the answer of `checks` does.
#[tactic(auto, unfolding(crate::specs::Checks::tells_items))]
pub fn tells_items(bytes: &[u8]) -> bool
    ensures { result ≡ tells_items bytes.now }
{
    bytes.len() >= HEADER_BYTES && bytes[HEADER_BYTES..].starts_with(LIST_LEAD)
}
