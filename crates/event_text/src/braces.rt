//! Parts of texts with macros.

ghost use Rattle.std.specs.Prelude.{◌≡◌, ◌++◌, ◌∷◌, ◌<◌, MatchOption, option_map};
ghost use Rattle.event_text.specs.Pieces.{behind, ascii_first, HasNo, from_brace};

/// What stands behind a word, where a text begins with it.
#[tactic(auto, using(crate::proofs::PieceLemmas::stripped))]
pub(crate) fn behind<'a>(text: &'a str, word: &str) -> Option<&'a str>
    ensures { option_map (λ r. r.now) result ≡ behind word.now text.now }
{
    text.strip_prefix(word)
}

/// The first byte of a text where it is an ASCII character, and what stands behind it.
pub(crate) fn ascii_first(text: &str) -> Option<(u8, &str)>
    ensures { option_map (λ r. (r.0, r.1.now)) result ≡ ascii_first text.now }
{
    let first = *text.as_bytes().first()?;
    if first < 128 {
        let (_, rest) = text.split_at(1);
        return Some((first, rest));
    }
    None
}

/// What stands before and behind the first place of an ASCII character.
pub(crate) fn split_at(text: &str, mark: char) -> Option<(&str, &str)>
    requires { mark < 128 }
    ensures { MatchOption result (HasNo mark text.now) (λ x. (text.now ≡ x.0.now ++ mark ∷ x.1.now) × HasNo mark x.0.now) }
{
    text.split_once(mark)
}

/// The front of a text before its first brace, and what stands behind that brace.
pub(crate) fn split_brace(text: &str) -> (&str, Option<&str>)
    ensures plain { HasNo 123 result.0.now }
    ensures whole { text.now ≡ result.0.now ++ from_brace (option_map (λ r. r.now) result.1) }
{
    match split_at(text, '{') {
        Some((plain, rest)) => (plain, Some(rest)),
        None => (text, None),
    }
}
