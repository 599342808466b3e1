//! Names of functions.

ghost use Rattle.std.specs.Prelude.{◌≡◌, [], ◌∷◌, true, if◌then◌else◌};
ghost use Rattle.expr_parser.specs.Parts as parts;
ghost use Rattle.expr_parser.specs.Machine as machine;
ghost use Rattle.zbx_types.specs.declared.calls.Fun.TheVariants as fun;

use crate::slots::{front, same};
use zbx_types::Fun;

fn begins_first(text: &[u8]) -> bool
    ensures { result ≡ parts.begins_one (machine.names machine.first_functions) text.now }
{
    front(text, b"last")
        || front(text, b"first")
        || front(text, b"min")
        || front(text, b"max")
        || front(text, b"avg")
        || front(text, b"sum")
        || front(text, b"change")
        || front(text, b"count")
        || front(text, b"find")
        || front(text, b"nodata")
}

fn begins_long(text: &[u8]) -> bool
    ensures { result ≡ parts.begins_one (machine.names (fun.Percentile ∷ fun.ChangeCount ∷ fun.MonoInc ∷ fun.MonoDec ∷ [])) text.now }
{
    front(text, b"percentile")
        || front(text, b"changecount")
        || front(text, b"monoinc")
        || front(text, b"monodec")
}

fn begins_date(text: &[u8]) -> bool
    ensures { result ≡ parts.begins_one (machine.names (fun.Now ∷ fun.Time ∷ fun.Date ∷ fun.DayOfWeek ∷ fun.DayOfMonth ∷ [])) text.now }
{
    front(text, b"now")
        || front(text, b"time")
        || front(text, b"date")
        || front(text, b"dayofweek")
        || front(text, b"dayofmonth")
}

fn begins_either(text: &[u8]) -> bool
    ensures { result ≡ (if parts.begins_one (machine.names (fun.Percentile ∷ fun.ChangeCount ∷ fun.MonoInc ∷ fun.MonoDec ∷ [])) text.now then true else parts.begins_one (machine.names (fun.Now ∷ fun.Time ∷ fun.Date ∷ fun.DayOfWeek ∷ fun.DayOfMonth ∷ [])) text.now) }
{
    begins_long(text) || begins_date(text)
}

fn begins_second(text: &[u8]) -> bool
    ensures { result ≡ parts.begins_one (machine.names machine.second_functions) text.now }
{
    begins_either(text)
}

/// The text begins the name of a function.
fn begins_name(text: &[u8]) -> bool
    ensures { result ≡ machine.begins_name text.now }
{
    begins_first(text) || begins_second(text)
}

/// `not`, or letters with which it begins.
fn begins_not(text: &[u8]) -> bool
    ensures { result ≡ parts.is_front text.now machine.not_word }
{
    front(text, b"not")
}

/// Letters with which `not` or a name begins, where these may stand.
pub(crate) fn begun(nots: bool, room: bool, text: &[u8]) -> bool
    ensures { result ≡ machine.is_begun nots room text.now }
{
    (room && begins_name(text)) || (nots && begins_not(text))
}

fn first_named(text: &[u8]) -> Option<Fun>
    ensures { result ≡ machine.function_in machine.first_functions text.now }
{
    if same(text, b"last") {
        Some(Fun::Last)
    } else if same(text, b"first") {
        Some(Fun::First)
    } else if same(text, b"min") {
        Some(Fun::Min)
    } else if same(text, b"max") {
        Some(Fun::Max)
    } else if same(text, b"avg") {
        Some(Fun::Avg)
    } else if same(text, b"sum") {
        Some(Fun::Sum)
    } else if same(text, b"change") {
        Some(Fun::Change)
    } else if same(text, b"count") {
        Some(Fun::Count)
    } else if same(text, b"find") {
        Some(Fun::Find)
    } else if same(text, b"nodata") {
        Some(Fun::NoData)
    } else {
        None
    }
}

fn second_named(text: &[u8]) -> Option<Fun>
    ensures { result ≡ machine.function_in machine.second_functions text.now }
{
    if same(text, b"percentile") {
        Some(Fun::Percentile)
    } else if same(text, b"changecount") {
        Some(Fun::ChangeCount)
    } else if same(text, b"monoinc") {
        Some(Fun::MonoInc)
    } else if same(text, b"monodec") {
        Some(Fun::MonoDec)
    } else if same(text, b"now") {
        Some(Fun::Now)
    } else if same(text, b"time") {
        Some(Fun::Time)
    } else if same(text, b"date") {
        Some(Fun::Date)
    } else if same(text, b"dayofweek") {
        Some(Fun::DayOfWeek)
    } else if same(text, b"dayofmonth") {
        Some(Fun::DayOfMonth)
    } else {
        None
    }
}

/// The function of a name.
pub(crate) fn named(text: &[u8]) -> Option<Fun>
    ensures { result ≡ machine.function_of text.now }
{
    match first_named(text) {
        Some(fun) => Some(fun),
        None => second_named(text),
    }
}

/// The word `not`.
pub(crate) fn is_not(text: &[u8]) -> bool
    ensures { result ≡ machine.is_not text.now }
{
    same(text, b"not")
}
