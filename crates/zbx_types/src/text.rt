//! Texts in UTF-8.

ghost use Rattle.std.specs.Prelude.{◌≡◌, ◌++◌, [], length, bytes_eq, string_bytes, OnOk, OnErr, IfOk, IfSome, MatchOption, IsUtf8};
ghost use Rattle.std.specs.Fmt.{decimal};
ghost use Rattle.zbx_types.specs.Texts.{contains};

use crate::memory::OutOfMemory;
use std::alloc::Global;
use std::cmp::Ordering;
use std::convert::AsStr;
use std::marker::Model;

/// A text in UTF-8, of any length. Contracts see the list of its bytes.
///
/// Texts are equal where their bytes are, and are ordered by their bytes, a prefix before what it begins.
#[derive(Debug, Drop)]
pub struct Text {
    text: String,
}

impl Model for Text {
    ghost use Rattle.std.specs.Prelude.{List, ℕ};
    ghost use Rattle.std.specs.String.{string_bytes};

    ghost Value = { List ℕ };

    ghost view = { λ t. string_bytes t.text };
}

impl Text {
    /// The empty text. Takes no memory.
    pub fn new(alloc: Global) -> Text
        ensures { result ≡ [] }
    {
        Text {
            text: String::new(alloc),
        }
    }

    /// A copy of a text. [`OutOfMemory`] where there is no room for it.
    pub fn of(alloc: Global, text: &str) -> Result<Text, OutOfMemory>
        ensures { IfOk result (λ made. made ≡ text.now) }
    {
        Ok(Text {
            text: String::from_str(alloc, text)?,
        })
    }

    /// A copy of bytes as a text, or None where they aren't UTF-8. [`OutOfMemory`] where there is no
    /// room for the copy.
    pub fn from_utf8(alloc: Global, bytes: &[u8]) -> Result<Option<Text>, OutOfMemory>
        ensures read { IfOk result (λ read. MatchOption read (¬ (IsUtf8 bytes.now)) (λ made. made ≡ bytes.now)) }
        ensures utf8 { IfOk result (λ read. IfSome read (λ made. IsUtf8 bytes.now)) }
    {
        match str::from_utf8(bytes) {
            Ok(text) => match Text::of(alloc, text) {
                Ok(made) => Ok(Some(made)),
                Err(OutOfMemory) => Err(OutOfMemory),
            },
            Err(_) => Ok(None),
        }
    }

    /// Its bytes.
    pub fn as_bytes(&self) -> &[u8]
        ensures { result.now ≡ self.now }
    {
        self.text.as_bytes()
    }

    /// How many bytes it has.
    pub fn len(&self) -> usize
        ensures { result ≡ length self.now }
    {
        self.text.as_bytes().len()
    }

    /// Where it takes its memory from.
    pub(crate) fn allocator(&self) -> Global {
        *self.text.allocator()
    }

    /// Adds a text at the end. At [`OutOfMemory`] the text is as before.
    pub fn push_str(&mut self, more: &str) -> Result<(), OutOfMemory>
        ensures ok { OnOk result (self.new ≡ self.old ++ more.now) }
        ensures err { OnErr result (self.new ≡ self.old) }
    {
        self.text.push_str(more)?;
        Ok(())
    }

    /// Adds a number in decimal digits at the end. At [`OutOfMemory`] the text is as before.
    pub fn push_decimal(&mut self, number: u64) -> Result<(), OutOfMemory>
        ensures ok { OnOk result (self.new ≡ self.old ++ decimal number) }
        ensures err { OnErr result (self.new ≡ self.old) }
    {
        let digits = number.to_string(self.allocator())?;
        self.push_str(digits.as_str())
    }

    /// Whether another text stands in it. The empty one stands in each.
    pub fn contains(&self, part: &Text) -> bool
        ensures { result ≡ contains self.now part.now }
    {
        stands_in(self.text.as_str(), part.text.as_str())
    }

    /// A copy. [`OutOfMemory`] where there is no room for it.
    pub fn copy(&self, alloc: Global) -> Result<Text, OutOfMemory>
        ensures { IfOk result (λ made. made ≡ self.now) }
    {
        Text::of(alloc, self.text.as_str())
    }

    /// The string that it was made of. Takes no memory.
    pub fn into_string(self) -> String
        ensures { string_bytes result ≡ self }
    {
        self.text
    }
}

/// Whether another text stands in a text.
fn stands_in(text: &str, part: &str) -> bool
    ensures { result ≡ contains text.now part.now }
{
    text.contains(part)
}

/// Whether two texts, or pieces of texts, have the same bytes.
pub fn same_text(a: &[u8], b: &[u8]) -> bool
    ensures { result ≡ bytes_eq a.now b.now }
{
    a == b
}

/// Whether two texts are the same.
pub fn is_same(one: &Text, other: &Text) -> bool
    ensures { result ≡ bytes_eq one.now other.now }
{
    same_text(one.as_bytes(), other.as_bytes())
}

impl From<String> for Text {
    ghost use Rattle.std.specs.Prelude.{◌≡◌};
    ghost use Rattle.std.specs.String.{string_bytes};

    ghost from_gives = { λ s t. t ≡ string_bytes s };

    fn from(text: String) -> Text {
        Text { text }
    }
}

impl AsStr for Text {
    ghost text = { λ t. t };

    fn as_str(&self) -> &str {
        self.text.as_str()
    }
}

impl PartialEq for Text {
    ghost use Rattle.std.specs.Prelude.{nat_eq};
    ghost use Rattle.std.specs.Cmp.Lexicographic.{pointwise, nat_list_eq_equiv};
    ghost use Rattle.std.specs.Cmp;

    ghost eq = { pointwise nat_eq };

    ghost laws = { Cmp.partial_equiv_from_equiv nat_list_eq_equiv };

    fn eq(&self, other: &Text) -> bool {
        self.text.as_str() == other.text.as_str()
    }
}

impl Eq for Text {
    ghost use Rattle.std.specs.Cmp.Lexicographic.{nat_list_eq_equiv};

    ghost laws = { nat_list_eq_equiv };
}

impl Ord for Text {
    ghost use Rattle.std.specs.Cmp.Lexicographic.{slice_cmp};
    ghost use Rattle.std.specs.Cmp.Rules.{comparing};
    ghost use Rattle.std.specs.Ordering.{nat_cmp};
    ghost use Rattle.std.proofs.Common.{rules};

    ghost cmp = { slice_cmp nat_cmp };

    ghost total = { Prim.search (comparing, rules) };

    ghost matches_partial_cmp = { Prim.search (comparing, rules) };

    ghost matches_eq = { Prim.search (comparing, rules) };

    fn cmp(&self, other: &Text) -> Ordering {
        self.text.cmp(&other.text)
    }
}

impl PartialOrd for Text {
    ghost use Rattle.std.specs.Cmp.{partial_order_from_own_ties};
    ghost use Rattle.std.specs.Cmp.Lexicographic.{slice_cmp};
    ghost use Rattle.std.specs.Cmp.Rules.{comparing};
    ghost use Rattle.std.specs.Ordering.{nat_cmp, as_partial_cmp};
    ghost use Rattle.std.proofs.Common.{rules};

    ghost partial_cmp = { as_partial_cmp (slice_cmp nat_cmp) };

    ghost laws = { partial_order_from_own_ties (Prim.search (comparing, rules)) (Prim.search (comparing, rules)) };

    fn partial_cmp(&self, other: &Text) -> Option<Ordering> {
        Some(self.cmp(other))
    }
}
