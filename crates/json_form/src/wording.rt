//! Words that have a meaning.

ghost use Rattle.std.specs.Prelude.{◌≡◌, ℕ, List, Option};

/// Words with a meaning: `and` and `or`, for one, which mean the two variants of an enum. They are named by a type that
/// is only a name.
pub trait Words {
    /// What a word means.
    type Meaning: Copy;

    /// What each text means, if it is one of the words.
    ghost meaning: { List ℕ → Option Self.Meaning };

    /// What the text means, or None where it is none of the words. Takes no memory.
    fn named(text: &str) -> Option<Self::Meaning>
        ensures { result ≡ meaning text.now };
}
