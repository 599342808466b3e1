//! What bytes from the start of a connection are: in constant time, since only the header is examined.

ghost use Rattle.std.specs.Prelude.{◌≡◌, ◌≤◌, length};
ghost use Rattle.zbxd_frame.specs.Laws.{IsFoundRight};
ghost use Rattle.zbxd_frame.specs.Found.{found, found_magic, found_long, agrees, magic};
ghost use Rattle.zbxd_frame.specs.Answers.{found_by};

use crate::fault::Fault;
use zbx_types::LONGEST_DATA;

/// What bytes are, as parts of them.
#[derive(Clone, Copy)]
pub(crate) enum Seen<'a> {
    Short,
    Whole { body: &'a [u8], behind: &'a [u8] },
    Bad(Fault),
}

/// Where the length is there.
#[tactic(auto, unfolding(crate::specs::Found::found_long))]
fn see_long(bytes: &[u8]) -> Seen<'_>
    requires { 9 ≤ length bytes.now }
    ensures { found_by result ≡ found_long bytes.now }
{
    let length = u32::from_le_bytes([bytes[5], bytes[6], bytes[7], bytes[8]]);
    if length > LONGEST_DATA {
        return Seen::Bad(Fault::Length);
    }
    let length = length as usize;
    if bytes.len() < 13 + length {
        return Seen::Short;
    }
    let (body, behind) = bytes[13..].split_at(length);
    Seen::Whole { body, behind }
}

/// Where the magic is there as far as the bytes go.
#[tactic(auto, unfolding(crate::specs::Found::found_magic))]
fn see_magic(bytes: &[u8]) -> Seen<'_>
    ensures { found_by result ≡ found_magic bytes.now }
{
    if bytes.len() <= 4 {
        return Seen::Short;
    }
    if bytes[4] != 1 {
        return Seen::Bad(Fault::Flags);
    }
    if bytes.len() < 9 {
        return Seen::Short;
    }
    see_long(bytes)
}

/// Whether the bytes begin as the magic does, as far as they go.
fn has_magic(bytes: &[u8]) -> bool
    ensures { result ≡ agrees bytes.now magic }
{
    bytes.iter().zip(b"ZBXD").all(|(byte, magic)| byte == magic)
}

/// What the bytes are.
#[tactic(auto, unfolding(crate::specs::Found::found))]
fn see_start(bytes: &[u8]) -> Seen<'_>
    ensures { found_by result ≡ found bytes.now }
{
    if has_magic(bytes) {
        see_magic(bytes)
    } else {
        Seen::Bad(Fault::Magic)
    }
}

/// What the bytes are, in the words of frames too.
pub(crate) fn see(bytes: &[u8]) -> Seen<'_>
    ensures seen { found_by result ≡ found bytes.now }
    ensures right { IsFoundRight bytes.now }
{
    see_start(bytes)
}
