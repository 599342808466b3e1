//! Tests of tags, and how several are joined.

ghost use Rattle.std.specs.Prelude.{◌≡◌, bytes_eq};
ghost use Rattle.zbx_types.specs.Texts.{contains};
ghost use Rattle.zbx_types.specs.Tags.{has_tag, has_value, share_value, passes, joined};

use crate::entries::Tag;
use crate::text::{Text, is_same};

/// How conditions are joined (the Zabbix 6.0 manual, "Conditions", type of calculation).
#[derive(Clone, Copy, Debug, PartialEq, Eq)]
pub enum Matching {
    /// All hold.
    And,
    /// At least one holds.
    Or,
}

/// How the value of a tag is compared.
#[derive(Clone, Copy, Debug, PartialEq, Eq)]
pub enum TagOp {
    /// Some value of the tag is the text.
    Equals,
    /// Some value of the tag contains the text.
    Contains,
    /// No value of the tag is the text.
    NotEquals,
    /// No value of the tag contains the text.
    NotContains,
}

/// A test of the values of a tag.
#[derive(Drop)]
pub struct TagTest {
    /// The tag's name.
    pub tag: Text,
    /// How they are compared.
    pub op: TagOp,
    /// The text that they are compared with.
    pub value: Text,
}

/// Whether some tag has a name.
pub fn has_tag(tags: &[Tag], name: &Text) -> bool
    ensures { result ≡ has_tag tags.now name.now }
{
    for tag in tags {
        if is_same(&tag.tag, name) {
            return true;
        }
    }
    false
}

/// Whether some tag of a name has the value.
fn has_equal(tags: &[Tag], name: &Text, value: &Text) -> bool
    ensures { result ≡ has_value (λ v. bytes_eq v value.now) name.now tags.now }
{
    for tag in tags {
        if is_same(&tag.tag, name) && is_same(&tag.value, value) {
            return true;
        }
    }
    false
}

/// Whether some value of a tag equals some value of a tag of another list. Tags of a name may stand more than once.
pub fn share_value(one: &[Tag], one_tag: &Text, other: &[Tag], other_tag: &Text) -> bool
    ensures { result ≡ share_value one.now one_tag.now other.now other_tag.now }
{
    for tag in one {
        if is_same(&tag.tag, one_tag) && has_equal(other, other_tag, &tag.value) {
            return true;
        }
    }
    false
}

/// Whether some tag of a name has a value in which a text stands.
fn has_containing(tags: &[Tag], name: &Text, part: &Text) -> bool
    ensures { result ≡ has_value (λ v. contains v part.now) name.now tags.now }
{
    for tag in tags {
        if is_same(&tag.tag, name) && tag.value.contains(part) {
            return true;
        }
    }
    false
}

impl TagTest {
    /// Whether it holds of tags: `Equals` and `Contains` of some value of the tag, the other two are their negations.
    pub fn passes(&self, tags: &[Tag]) -> bool
        ensures { result ≡ passes tags.now self.now }
    {
        match self.op {
            TagOp::Equals => has_equal(tags, &self.tag, &self.value),
            TagOp::Contains => has_containing(tags, &self.tag, &self.value),
            TagOp::NotEquals => !has_equal(tags, &self.tag, &self.value),
            TagOp::NotContains => !has_containing(tags, &self.tag, &self.value),
        }
    }
}

fn all_pass(tests: &[TagTest], tags: &[Tag]) -> bool
    ensures { result ≡ joined Matching.And (passes tags.now) tests.now }
{
    tests.iter().all(|test| test.passes(tags))
}

fn some_passes(tests: &[TagTest], tags: &[Tag]) -> bool
    ensures { result ≡ joined Matching.Or (passes tags.now) tests.now }
{
    for test in tests {
        if test.passes(tags) {
            return true;
        }
    }
    false
}

/// Whether tests hold of tags, as they are joined: of no test `And` holds and `Or` doesn't.
pub fn tests_pass(matching: Matching, tests: &[TagTest], tags: &[Tag]) -> bool
    ensures { result ≡ joined matching (passes tags.now) tests.now }
{
    match matching {
        Matching::And => all_pass(tests, tags),
        Matching::Or => some_passes(tests, tags),
    }
}
