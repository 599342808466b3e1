//! The places of templates by their names.

ghost use Rattle.std.specs.Prelude.{◌≡◌, List, ℕ, IfOk, OnOk};
ghost use Rattle.std.specs.HashMap.{get_by_text};
ghost use Rattle.std.specs.Str.{bytes_eq};
ghost use Rattle.host_layout.specs.Links.{template_named};
ghost use Rattle.host_layout.specs.Tables.{noted};

use config_read::RawHost;
use std::alloc::Global;
use std::collections::HashMap;
use std::convert::AsStr;
use zbx_types::{OutOfMemory, Text};

/// Templates with an index by which the first of a name is found, without a search over the others.
#[derive(Drop)]
pub(crate) struct Names<'r> {
    pub templates: &'r [RawHost],
    places: HashMap<String, usize>,
    ghost first: { (name : List ℕ) → get_by_text places name ≡ template_named templates.now name },
}

/// Notes the place of a name, unless the name has one.
fn note(
    alloc: Global,
    places: &mut HashMap<String, usize>,
    name: &Text,
    place: usize,
) -> Result<(), OutOfMemory>
    ensures { OnOk result ((q : List ℕ) → get_by_text places.new q ≡ noted (get_by_text places.old q) (bytes_eq name.now q) place) }
{
    if places.get(name.as_str()).is_none() {
        places.insert(String::from_str(alloc, name.as_str())?, place)?;
    }
    Ok(())
}

/// The places of templates by their names: of each name the first.
fn places_of(alloc: Global, templates: &[RawHost]) -> Result<HashMap<String, usize>, OutOfMemory>
    ensures { IfOk result (λ places. (name : List ℕ) → get_by_text places name ≡ template_named templates.now name) }
{
    let mut places = HashMap::new(alloc);
    for (place, template) in templates.iter().enumerate() {
        note(alloc, &mut places, &template.name, place)?;
    }
    Ok(places)
}

impl<'r> Names<'r> {
    /// Makes the index, in time that grows with the length of the names.
    pub(crate) fn of(alloc: Global, templates: &'r [RawHost]) -> Result<Names<'r>, OutOfMemory>
        ensures { IfOk result (λ names. names.templates.now ≡ templates.now) }
    {
        let places = places_of(alloc, templates)?;
        Ok(Names { templates, places })
    }

    /// The place of the first template with a name.
    pub(crate) fn place(&self, name: &Text) -> Option<usize>
        ensures { result ≡ template_named self.now.templates.now name.now }
    {
        self.places.get(name.as_str()).copied()
    }
}
