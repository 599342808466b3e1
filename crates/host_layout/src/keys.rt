//! Keys of items.

ghost use Rattle.std.specs.Prelude.{◌≡◌, ◌≤◌, length};
ghost use Rattle.zbx_types.specs.Limits.{longest_key};
ghost use Rattle.host_layout.specs.Items.{is_key, key_length};

use item_key::read;

/// The length of the longest front that is a key, and 0 where none is.
pub(crate) fn key_length(text: &[u8]) -> u32
    ensures value { result ≡ key_length text.now }
    ensures within { result ≤ length text.now }
    ensures most { result ≤ longest_key }
{
    match read(text) {
        Ok(length) => length,
        Err(_) => 0,
    }
}

/// Whether the text is a key.
pub(crate) fn is_key(text: &[u8]) -> bool
    ensures { result ≡ is_key text.now }
{
    1 <= text.len() && key_length(text) as usize == text.len()
}
