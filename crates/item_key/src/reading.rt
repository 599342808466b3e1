//! Reading of keys at the beginning of texts.

ghost use Rattle.std.specs.Prelude.{◌≡◌, ◌≤◌, length, take, IfOk, IfErr};
ghost use Rattle.byte_grammar.specs.Fault.{IsFaultUpTo};
ghost use Rattle.zbx_types.specs.Limits.{longest_key};
ghost use Rattle.item_key.specs.Fault.{HasNoLonger, HasNone};
ghost use Rattle.item_key.specs.Grammar.{IsKey, IsKeyText};
ghost use Rattle.item_key.specs.Machine.{IsLongestEnd};

use crate::places::{Place, may_end, next};
use zbx_types::LONGEST_KEY;

/// The length of the longest front that is a key, 0 where none is.
fn longest(text: &[u8]) -> u32
    requires { length text.now ≤ longest_key }
    ensures { IsLongestEnd text.now result }
{
    let mut place = Place::Start;
    let mut longest = 0;
    let mut count = 0;
    for byte in text {
        match next(place, *byte) {
            Some(now) => place = now,
            None => return longest,
        }
        count += 1;
        if may_end(place) {
            longest = count;
        }
    }
    longest
}

/// What of a text may be a key.
fn front(text: &[u8]) -> &[u8]
    ensures { result.now ≡ take longest_key text.now }
{
    if text.len() > LONGEST_KEY {
        &text[..LONGEST_KEY]
    } else {
        text
    }
}

/// Reads the key that a text begins with (the Zabbix 6.0 manual, "Item key format"), and takes no memory.
///
/// `Ok` is the length in bytes, from 1 to [`LONGEST_KEY`], of the longest front that is a key; what stands behind it
/// is not looked at. `Err` comes where no front is a key: it is the place of the first byte where no key goes on,
/// counted from 0, or the length of the text where that comes first.
pub fn read(text: &[u8]) -> Result<u32, u32>
    ensures key { IfOk result (λ n. IsKey (take n text.now) × (n ≤ length text.now) × (n ≤ longest_key)) }
    ensures longest { IfOk result (λ n. HasNoLonger IsKey text.now n) }
    ensures place { IfErr result (λ at. HasNone IsKey text.now × IsFaultUpTo IsKeyText longest_key text.now at) }
{
    let length = longest(front(text));
    if length == 0 { Err(0) } else { Ok(length) }
}
