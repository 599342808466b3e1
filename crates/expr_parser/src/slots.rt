//! Functions by name, and the arguments that they take.

ghost use Rattle.std.specs.Prelude.{◌≡◌};
ghost use Rattle.expr_parser.specs.Functions as functions;
ghost use Rattle.expr_parser.specs.Calls as calls;
ghost use Rattle.expr_parser.specs.Parts as parts;
ghost use Rattle.expr_parser.specs.View.{slot_list};
ghost use Rattle.expr_parser.specs.declared.slots.Words.TheVariants.{Operators};

use zbx_types::{Fun, Range};

/// The words of an argument.
#[derive(Clone, Copy)]
pub enum Words {
    /// Of `count` and `find`.
    Operators,
    /// Of `changecount`.
    Directions,
    /// Of `monoinc` and `monodec`.
    Strengths,
}

/// An argument that a function takes.
#[derive(Clone, Copy)]
pub enum Slot {
    /// `#n`, optional.
    Newest,
    /// A range.
    Span,
    /// A range, optional.
    MaybeSpan,
    /// A period of at least 30 seconds, without a shift.
    Silence,
    /// One of some words in quotes, optional.
    Word(Words),
    /// A number from 0 to 100.
    Percent,
    /// A number or a text in quotes, optional.
    Free,
}

/// The arguments that a function takes behind the item, or what is left of them.
#[derive(Clone, Copy)]
pub(crate) enum Slots {
    Zero,
    OneSlot(Slot),
    TwoSlots(Slot, Slot),
    ThreeSlots(Slot, Slot, Slot),
}

/// The arguments of a function.
pub(crate) fn slots_of(fun: Fun) -> Slots
    ensures { slot_list result ≡ functions.slots fun }
{
    match fun {
        Fun::Last => Slots::OneSlot(Slot::Newest),
        Fun::First | Fun::Min | Fun::Max | Fun::Avg | Fun::Sum => Slots::OneSlot(Slot::Span),
        Fun::Count => Slots::ThreeSlots(Slot::Span, Slot::Word(Words::Operators), Slot::Free),
        Fun::Find => Slots::ThreeSlots(Slot::MaybeSpan, Slot::Word(Words::Operators), Slot::Free),
        Fun::NoData => Slots::OneSlot(Slot::Silence),
        Fun::Percentile => Slots::TwoSlots(Slot::Span, Slot::Percent),
        Fun::ChangeCount => Slots::TwoSlots(Slot::Span, Slot::Word(Words::Directions)),
        Fun::MonoInc => Slots::TwoSlots(Slot::Span, Slot::Word(Words::Strengths)),
        Fun::MonoDec => Slots::TwoSlots(Slot::Span, Slot::Word(Words::Strengths)),
        _ => Slots::Zero,
    }
}

/// The range of a function where none is written.
pub(crate) fn default_range(fun: Fun) -> Range
    ensures { result ≡ functions.default_range fun }
{
    match fun {
        Fun::Change => Range::Count(2),
        _ => Range::Count(1),
    }
}

fn may_be_absent(slot: Slot) -> bool
    ensures { result ≡ calls.may_be_absent slot }
{
    match slot {
        Slot::Newest | Slot::MaybeSpan | Slot::Word(_) | Slot::Free => true,
        _ => false,
    }
}

/// All that is left may be absent.
pub(crate) fn all_absent(slots: Slots) -> bool
    ensures { result ≡ calls.all_absent (slot_list slots) }
{
    match slots {
        Slots::Zero => true,
        Slots::OneSlot(a) => may_be_absent(a),
        Slots::TwoSlots(a, b) => may_be_absent(a) && may_be_absent(b),
        Slots::ThreeSlots(a, b, c) => may_be_absent(a) && may_be_absent(b) && may_be_absent(c),
    }
}

/// `#n` may stand there.
pub(crate) fn takes_count(slot: Slot) -> bool
    ensures { result ≡ functions.takes_count slot }
{
    match slot {
        Slot::Newest | Slot::Span | Slot::MaybeSpan => true,
        _ => false,
    }
}

/// The least seconds of a period there.
pub(crate) fn least_period(slot: Slot) -> Option<u32>
    ensures { result ≡ functions.least_period slot }
{
    match slot {
        Slot::Span | Slot::MaybeSpan => Some(1),
        Slot::Silence => Some(30),
        _ => None,
    }
}

/// The greatest number there, in millionths.
pub(crate) fn number_limit(slot: Slot) -> Option<u128>
    ensures { result ≡ calls.number_limit slot }
{
    match slot {
        Slot::Percent => Some(100_000_000),
        Slot::Free => Some(1_000_000_000_000_000_000_000_000_000_000),
        _ => None,
    }
}

/// The texts are one.
pub(crate) fn same(a: &[u8], b: &[u8]) -> bool
    ensures { result ≡ calls.is_same a.now b.now }
{
    a == b
}

/// The first text begins the second.
pub(crate) fn front(a: &[u8], b: &[u8]) -> bool
    ensures { result ≡ parts.is_front a.now b.now }
{
    b.starts_with(a)
}

/// The text is one of the words.
pub(crate) fn one_of(words: Words, text: &[u8]) -> bool
    ensures { result ≡ calls.is_one_of (functions.word_list words) text.now }
{
    match words {
        Words::Operators => an_operator(text),
        Words::Directions => {
            same(text, b"") || same(text, b"all") || same(text, b"inc") || same(text, b"dec")
        }
        Words::Strengths => same(text, b"") || same(text, b"weak") || same(text, b"strict"),
    }
}

fn an_operator(text: &[u8]) -> bool
    ensures { result ≡ calls.is_one_of (functions.word_list Operators) text.now }
{
    same(text, b"")
        || same(text, b"eq")
        || same(text, b"ne")
        || same(text, b"gt")
        || same(text, b"ge")
        || same(text, b"lt")
        || same(text, b"le")
        || same(text, b"like")
        || same(text, b"regexp")
        || same(text, b"iregexp")
}

/// The text begins one of the words.
pub(crate) fn begins_word(words: Words, text: &[u8]) -> bool
    ensures { result ≡ parts.begins_one (functions.word_list words) text.now }
{
    match words {
        Words::Operators => begins_operator(text),
        Words::Directions => {
            front(text, b"") || front(text, b"all") || front(text, b"inc") || front(text, b"dec")
        }
        Words::Strengths => front(text, b"") || front(text, b"weak") || front(text, b"strict"),
    }
}

fn begins_operator(text: &[u8]) -> bool
    ensures { result ≡ parts.begins_one (functions.word_list Operators) text.now }
{
    front(text, b"")
        || front(text, b"eq")
        || front(text, b"ne")
        || front(text, b"gt")
        || front(text, b"ge")
        || front(text, b"lt")
        || front(text, b"le")
        || front(text, b"like")
        || front(text, b"regexp")
        || front(text, b"iregexp")
}
