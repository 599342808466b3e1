//! Where references stand.

ghost use Rattle.std.specs.Prelude.{◌≡◌, ◌≤◌, ◌<◌, length};
ghost use Rattle.macro_text.specs.References.{name_len, named_len, reference_len, before_brace, plain_len};

use zbx_types::is_macro_name_byte;

/// How many bytes at the front may stand in a name.
fn name_len(text: &[u8]) -> usize
    ensures { result ≡ name_len text.now }
{
    text.iter().take_while(|c| is_macro_name_byte(**c)).count()
}

/// The length of the reference whose bytes behind `{$` begin here, or 0.
fn named_len(rest: &[u8]) -> usize
    ensures { result ≡ named_len rest.now }
{
    let length = name_len(rest);
    if 0 < length && length < rest.len() && rest[length] == b'}' {
        length + 3
    } else {
        0
    }
}

/// How many bytes long the reference is that a text begins with, or 0 where it begins with none.
pub(crate) fn reference_len(text: &[u8]) -> usize
    ensures { result ≡ reference_len text.now }
{
    match text {
        [b'{', b'$', rest @ ..] => named_len(rest),
        _ => 0,
    }
}

/// How many bytes stand before the first brace.
#[tactic(auto, using(crate::proofs::Ends::lengths))]
fn before_brace(text: &[u8]) -> usize
    ensures value { result ≡ before_brace text.now }
    ensures within { result ≤ length text.now }
{
    text.iter().take_while(|c| **c != b'{').count()
}

/// How many bytes stay where a text begins with no reference.
pub(crate) fn plain_len(text: &[u8]) -> usize
    ensures { result ≡ plain_len text.now }
{
    match text {
        [] => 0,
        [_, rest @ ..] => 1 + before_brace(rest),
    }
}
