//! Places of a document, and the plain values at them.

ghost use Rattle.std.specs.Prelude.{◌≡◌, ◌≤ℤ◌, ◌≤◌, IfOk, OnErr, ◌++◌, ◌∷◌, [], option_map};
ghost use Rattle.serde_json.specs.View.{view};
ghost use Rattle.json_form.specs.Faults.{Gives, GivesAs};
ghost use Rattle.json_form.specs.Places.{place_of, object_of, spot, ◌▸◌, IsRefusal, word, free, an_object, text, truth, number_between, whole_between, given_or};
ghost use Rattle.json_form.specs.Lists.{elements, match_items, at_most, not_empty};

use crate::fault::ReadError;
use crate::names::Names;
use crate::pointers::below;
use crate::wording::Words;
use serde_json::Value;
use std::alloc::Global;
use std::convert::AsStr;
use zbx_types::{Cause, OutOfMemory, Text};

/// An object of a document.
#[derive(Clone, Copy)]
pub struct Object<'p, 'v> {
    /// The JSON pointer to it.
    pub path: &'p str,
    /// The object.
    pub value: &'v Value,
}

/// A place of a document: that of a member, whether or not it is there, or that of an element or of the whole.
#[derive(Clone, Copy)]
pub struct At<'p, 'v> {
    /// The JSON pointer to the object that the member is of, or to the element or the whole.
    pub path: &'p str,
    /// The member's name.
    pub name: Option<&'p str>,
    /// What stands there, if anything does.
    pub value: Option<&'v Value>,
}

impl<'p, 'v> Object<'p, 'v> {
    /// The object at this pointer. BadMember where the value is no object.
    #[tactic(auto, unfolding(crate::specs::Places::an_object))]
    pub fn at(alloc: Global, path: &'p str, value: &'v Value) -> Result<Object<'p, 'v>, ReadError>
        ensures { GivesAs object_of result (an_object (spot path.now (view value.now))) }
    {
        if !value.is_object() {
            return Err(At::here(path, value).refused(alloc, Cause::BadMember));
        }
        Ok(Object { path, value })
    }

    /// The place of a member. Takes no memory.
    #[tactic(auto, unfolding(crate::specs::Places::member_of))]
    pub fn member(&self, name: &'p str) -> At<'p, 'v>
        ensures { place_of result ≡ object_of self.now ▸ name.now }
    {
        At {
            path: self.path,
            name: Some(name),
            value: self.value.get(name),
        }
    }
}

impl<'p, 'v> At<'p, 'v> {
    /// The place where a value stands. Takes no memory.
    pub fn here(path: &'p str, value: &'v Value) -> At<'p, 'v>
        ensures { place_of result ≡ spot path.now (view value.now) }
    {
        At {
            path,
            name: None,
            value: Some(value),
        }
    }

    /// The JSON pointer to the place, names in it with `~0` for `~` and `~1` for `/`.
    pub fn pointer(&self, alloc: Global) -> Result<Text, OutOfMemory>
        ensures { IfOk result (λ t. t ≡ (place_of self.now).path) }
    {
        match self.name {
            Some(name) => below(alloc, self.path, name),
            None => Text::of(alloc, self.path),
        }
    }

    /// The refusal that says what is wrong at the place, or want of memory for its pointer.
    pub fn refused(&self, alloc: Global, cause: Cause) -> ReadError
        ensures { IsRefusal (place_of self.now) cause result }
    {
        match self.pointer(alloc) {
            Ok(path) => ReadError::Refused { path, cause },
            Err(_) => ReadError::OutOfMemory,
        }
    }

    /// The elements of the list at the place, None where nothing stands. BadMember where something else does.
    #[tactic(auto, unfolding(crate::specs::Lists::elements, crate::specs::Places::given_or))]
    pub fn elements(&self, alloc: Global) -> Result<Option<&'v Vec<Value>>, ReadError>
        ensures { GivesAs (λ o. match_items (option_map (λ v. v.now.items) o)) result (elements (place_of self.now)) }
    {
        match self.value {
            None => Ok(None),
            Some(value) => match value.as_array() {
                Some(values) => Ok(Some(values)),
                None => Err(self.refused(alloc, Cause::BadMember)),
            },
        }
    }

    /// The same place, where its list has at most so many elements; else the cause at the list. BadMember where
    /// something else than a list stands there.
    #[tactic(auto, using(crate::proofs::Elements::count_items), unfolding(crate::specs::Lists::at_most))]
    pub fn at_most(
        &self,
        alloc: Global,
        limit: usize,
        cause: Cause,
    ) -> Result<At<'p, 'v>, ReadError>
        ensures { GivesAs place_of result (at_most limit cause (place_of self.now)) }
    {
        match self.elements(alloc)? {
            Some(values) if values.len() > limit => Err(self.refused(alloc, cause)),
            _ => Ok(*self),
        }
    }

    /// The same place, where its list has an element; else BadMember at the list.
    #[tactic(auto, using(crate::proofs::Elements::count_items), unfolding(crate::specs::Lists::not_empty))]
    pub fn not_empty(&self, alloc: Global) -> Result<At<'p, 'v>, ReadError>
        ensures { GivesAs place_of result (not_empty (place_of self.now)) }
    {
        match self.elements(alloc)? {
            Some(values) if !values.is_empty() => Ok(*self),
            _ => Err(self.refused(alloc, Cause::BadMember)),
        }
    }

    /// The text at the place, else BadMember.
    #[tactic(auto, unfolding(crate::specs::Places::text))]
    pub fn text(&self, alloc: Global) -> Result<Text, ReadError>
        ensures { Gives result (text (place_of self.now)) }
    {
        match self.value.and_then(Value::as_str) {
            Some(text) => Ok(Text::of(alloc, text)?),
            None => Err(self.refused(alloc, Cause::BadMember)),
        }
    }

    /// The text at the place, or the default where nothing stands. BadMember where something else does.
    #[tactic(auto, unfolding(crate::specs::Places::given_or))]
    pub fn text_or(&self, alloc: Global, default: &str) -> Result<Text, ReadError>
        ensures { Gives result (given_or default.now text (place_of self.now)) }
    {
        match self.value {
            Some(_) => self.text(alloc),
            None => Ok(Text::of(alloc, default)?),
        }
    }

    /// The whole number from `least` to `most` at the place, else BadMember. A number written with a point or an
    /// exponent isn't whole.
    #[tactic(auto, unfolding(crate::specs::Places::whole_between))]
    pub fn whole(&self, alloc: Global, least: i64, most: i64) -> Result<i64, ReadError>
        ensures gives { Gives result (whole_between least most (place_of self.now)) }
        ensures within { IfOk result (λ z. (least ≤ℤ z) × (z ≤ℤ most)) }
    {
        match self.value.and_then(Value::as_i64) {
            Some(number) if least <= number && number <= most => Ok(number),
            _ => Err(self.refused(alloc, Cause::BadMember)),
        }
    }

    /// The whole number from `least` to `most` at the place, or the default where nothing stands. BadMember where
    /// something else does.
    #[tactic(auto, unfolding(crate::specs::Places::given_or))]
    pub fn whole_or(
        &self,
        alloc: Global,
        default: i64,
        least: i64,
        most: i64,
    ) -> Result<i64, ReadError>
        requires { (least ≤ℤ default) × (default ≤ℤ most) }
        ensures gives { Gives result (given_or default (whole_between least most) (place_of self.now)) }
        ensures within { IfOk result (λ z. (least ≤ℤ z) × (z ≤ℤ most)) }
    {
        match self.value {
            Some(_) => self.whole(alloc, least, most),
            None => Ok(default),
        }
    }

    /// The same for whole numbers from 0 on.
    #[tactic(auto, unfolding(crate::specs::Places::number_between))]
    pub fn number(&self, alloc: Global, least: u32, most: u32) -> Result<u32, ReadError>
        ensures gives { Gives result (number_between least most (place_of self.now)) }
        ensures within { IfOk result (λ n. (least ≤ n) × (n ≤ most)) }
    {
        match self.value.and_then(Value::as_u64) {
            Some(number) if least as u64 <= number && number <= most as u64 => Ok(number as u32),
            _ => Err(self.refused(alloc, Cause::BadMember)),
        }
    }

    /// The same for whole numbers from 0 on, or the default where nothing stands.
    #[tactic(auto, unfolding(crate::specs::Places::given_or))]
    pub fn number_or(
        &self,
        alloc: Global,
        default: u32,
        least: u32,
        most: u32,
    ) -> Result<u32, ReadError>
        requires { default ≤ most }
        ensures gives { Gives result (given_or default (number_between least most) (place_of self.now)) }
        ensures within { IfOk result (λ n. n ≤ most) }
    {
        match self.value {
            Some(_) => self.number(alloc, least, most),
            None => Ok(default),
        }
    }

    /// The truth value at the place, else BadMember.
    #[tactic(auto, unfolding(crate::specs::Places::truth))]
    pub fn truth(&self, alloc: Global) -> Result<bool, ReadError>
        ensures { Gives result (truth (place_of self.now)) }
    {
        match self.value.and_then(Value::as_bool) {
            Some(truth) => Ok(truth),
            None => Err(self.refused(alloc, Cause::BadMember)),
        }
    }

    /// The truth value at the place, or the default where nothing stands. BadMember where something else does.
    #[tactic(auto, unfolding(crate::specs::Places::given_or))]
    pub fn truth_or(&self, alloc: Global, default: bool) -> Result<bool, ReadError>
        ensures { Gives result (given_or default truth (place_of self.now)) }
    {
        match self.value {
            Some(_) => self.truth(alloc),
            None => Ok(default),
        }
    }

    /// What the word at the place means. BadMember where none of its words stands there.
    #[tactic(auto, unfolding(crate::specs::Places::word))]
    pub fn word<W: Words>(&self, alloc: Global) -> Result<W::Meaning, ReadError>
        ensures { Gives result (word W.meaning (place_of self.now)) }
    {
        let Some(word) = self.value.and_then(Value::as_str) else {
            return Err(self.refused(alloc, Cause::BadMember));
        };
        match W::named(word) {
            Some(meaning) => Ok(meaning),
            None => Err(self.refused(alloc, Cause::BadMember)),
        }
    }

    /// What the word at the place means, or the default where nothing stands. BadMember where something else does.
    #[tactic(auto, unfolding(crate::specs::Places::given_or))]
    pub fn word_or<W: Words>(
        &self,
        alloc: Global,
        default: W::Meaning,
    ) -> Result<W::Meaning, ReadError>
        ensures { Gives result (given_or default (word W.meaning) (place_of self.now)) }
    {
        match self.value {
            Some(_) => self.word::<W>(alloc),
            None => Ok(default),
        }
    }

    /// The name that was read at the place, if it is free; it is taken from then on. Duplicate where it was taken
    /// before.
    #[tactic(auto, unfolding(crate::specs::Places::free))]
    pub fn free(&self, alloc: Global, taken: &mut Names, name: Text) -> Result<Text, ReadError>
        ensures gives { Gives result (free taken.old (place_of self.now) name) }
        ensures taken { IfOk result (λ n. taken.new ≡ taken.old ++ n ∷ []) }
        ensures refused { OnErr result (taken.new ≡ taken.old) }
    {
        if !taken.take(alloc, name.as_str())? {
            return Err(self.refused(alloc, Cause::Duplicate));
        }
        Ok(name)
    }
}
