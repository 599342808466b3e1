//! Macros by their names.

ghost use Rattle.std.specs.Prelude.{◌≡◌, ◌++◌, ℕ, List, map, option_map, IfOk, OnOk};
ghost use Rattle.std.specs.Str.{bytes_eq};
ghost use Rattle.macro_text.specs.Expanded.{value_of};
ghost use Rattle.macro_text.specs.Index.{macro_now, value_in, first_value, noted};

use crate::macros::MacroRef;
use std::alloc::Global;
use std::collections::HashMap;
use std::convert::AsStr;
use std::marker::Model;
use zbx_types::{Many, OutOfMemory};

/// A list of macros that stand elsewhere, in which the first of a name is found without a search over the others.
/// Contracts see the list.
#[derive(Drop)]
pub struct MacroIndex<'m> {
    listed: Many<MacroRef<'m>>,
    values: HashMap<&'m str, &'m str>,
}

impl<'m> Model for MacroIndex<'m> {
    ghost use Rattle.std.specs.Prelude.{List, map};
    ghost use Rattle.macro_text.specs.Index.{macro_now, FindsFirst};
    ghost use Rattle.macro_text.specs.declared.macros.Macro.{Macro};

    ghost Value = { List Macro };

    ghost view = { λ i. map macro_now i.listed };

    ghost invariant = { λ i. FindsFirst i.values (map macro_now i.listed) };
}

/// Notes the value of a macro, unless its name has one.
fn note<'m>(values: &mut HashMap<&'m str, &'m str>, more: MacroRef<'m>) -> Result<(), OutOfMemory>
    ensures { OnOk result ((q : List ℕ) → value_in values.new q ≡ noted (value_in values.old q) (bytes_eq more.entry.name.now q) more.entry.value.now) }
{
    let name = more.name.as_str();
    if !values.contains_key(name) {
        values.insert(name, more.value.as_str())?;
    }
    Ok(())
}

/// The values of macros by their names: of each name the first.
fn values_of<'m>(
    alloc: Global,
    listed: &[MacroRef<'m>],
) -> Result<HashMap<&'m str, &'m str>, OutOfMemory>
    ensures { IfOk result (λ values. (q : List ℕ) → value_in values q ≡ first_value (map macro_now listed.now) q) }
{
    let mut values = HashMap::new(alloc);
    for more in listed {
        note(&mut values, *more)?;
    }
    Ok(values)
}

impl<'m> MacroIndex<'m> {
    /// The index of a list, made in time that grows with the length of the names. [`OutOfMemory`] where there is no room
    /// for it.
    pub fn of(alloc: Global, listed: Many<MacroRef<'m>>) -> Result<MacroIndex<'m>, OutOfMemory>
        ensures { IfOk result (λ index. index ≡ map macro_now listed.entry) }
    {
        let values = values_of(alloc, listed.as_slice())?;
        Ok(MacroIndex { listed, values })
    }

    /// The value of the first macro with a name.
    pub fn find(&self, name: &str) -> Option<&'m str>
        ensures { option_map (λ v. v.now) result ≡ first_value self.now name.now }
    {
        self.values.get(name).copied()
    }
}

/// The macros for a text: those near to it, as a host's and its templates', and behind them global ones, which many texts
/// share. Contracts see one list, the near ones first.
#[derive(Drop)]
pub struct Macros<'m, 'g> {
    near: MacroIndex<'m>,
    global: &'g MacroIndex<'m>,
}

impl<'m, 'g> Model for Macros<'m, 'g> {
    ghost use Rattle.std.specs.Prelude.{List, ◌++◌};
    ghost use Rattle.macro_text.specs.declared.macros.Macro.{Macro};

    ghost Value = { List Macro };

    ghost view = { λ m. m.near ++ m.global.now };
}

impl<'m, 'g> Macros<'m, 'g> {
    /// The near ones, and behind them the global ones. Takes no memory.
    pub fn new(near: MacroIndex<'m>, global: &'g MacroIndex<'m>) -> Macros<'m, 'g>
        ensures { result ≡ near.entry ++ global.now }
    {
        Macros { near, global }
    }

    /// The value of a reference, or itself where no macro has its name.
    #[tactic(auto, using(crate::proofs::Indexed::found_near, crate::proofs::Indexed::found_global, crate::proofs::Indexed::found_none))]
    pub(crate) fn value_of<'a>(&'a self, name: &'a str) -> &'a str
        ensures { result.now ≡ value_of self.now name.now }
    {
        match self.near.find(name) {
            Some(value) => value,
            None => match self.global.find(name) {
                Some(value) => value,
                None => name,
            },
        }
    }
}
