//! Blanks around a value (this project's own). A number item reads a value without them.

ghost use Rattle.std.specs.Prelude.{◌≡◌};
ghost use Rattle.zbx_types.specs.Blanks.{is_blank, without_front, without_back, unpadded};

/// Whether a byte is a space, a tab, a carriage return or a line feed.
fn is_blank(c: u8) -> bool
    ensures { result ≡ is_blank c }
{
    matches!(c, b' ' | b'\t' | b'\r' | b'\n')
}

/// A text without the blanks that it begins with.
fn without_front(mut text: &[u8]) -> &[u8]
    ensures { result.now ≡ without_front text.now }
{
    while let [first, rest @ ..] = text
        && is_blank(*first)
    {
        text = rest;
    }
    text
}

/// A text without the blanks that it ends with.
fn without_back(mut text: &[u8]) -> &[u8]
    ensures { result.now ≡ without_back text.now }
{
    while let [rest @ .., last] = text
        && is_blank(*last)
    {
        text = rest;
    }
    text
}

/// A text without the blanks at both ends.
#[tactic(auto, unfolding(crate::specs::Blanks::unpadded))]
pub fn unpadded(text: &[u8]) -> &[u8]
    ensures { result.now ≡ unpadded text.now }
{
    without_back(without_front(text))
}
