//! Names of the document.

ghost use Rattle.std.specs.Prelude.{◌≡◌, ◌++◌, ◌∷◌, [], IfOk};
ghost use Rattle.std.specs.List.{list_all};
ghost use Rattle.json_form.specs.Faults.{Gives};
ghost use Rattle.json_form.specs.Places.{place_of, text_that};
ghost use Rattle.zbx_types.specs.NameBytes.{is_host_name_byte, is_macro_name_byte};
ghost use Rattle.config_read.specs.Words.{is_host_name, is_macro_name, is_title, new_name};
ghost use Rattle.config_read.specs.Naming.{has_form};

use json_form::{At, Names, ReadError};
use std::alloc::Global;
use std::convert::AsStr;
use zbx_types::{Cause, LONGEST_NAME, Text, is_host_name_byte, is_macro_name_byte};

/// What names may look like.
#[derive(Clone, Copy, Debug, PartialEq, Eq)]
pub(crate) enum Form {
    /// Those of hosts and templates.
    Host,
    /// Those of user macros.
    Macro,
    /// All others.
    Title,
}

fn all_name_bytes(bytes: &[u8]) -> bool
    ensures { result ≡ list_all is_host_name_byte bytes.now }
{
    bytes.iter().all(|c| is_host_name_byte(*c))
}

fn all_macro_bytes(bytes: &[u8]) -> bool
    ensures { result ≡ list_all is_macro_name_byte bytes.now }
{
    bytes.iter().all(|c| is_macro_name_byte(*c))
}

fn is_host_name(name: &[u8]) -> bool
    ensures { result ≡ is_host_name name.now }
{
    1 <= name.len() && name.len() <= LONGEST_NAME && all_name_bytes(name)
}

fn is_macro_name(name: &[u8]) -> bool
    ensures { result ≡ is_macro_name name.now }
{
    let length = name.len();
    4 <= length
        && length <= 255
        && name[0] == b'{'
        && name[1] == b'$'
        && name[length - 1] == b'}'
        && all_macro_bytes(&name[2..length - 1])
}

fn is_title(name: &[u8]) -> bool
    ensures { result ≡ is_title name.now }
{
    1 <= name.len() && name.len() <= 255
}

fn has_form(form: Form, name: &[u8]) -> bool
    ensures { result ≡ has_form form name.now }
{
    match form {
        Form::Host => is_host_name(name),
        Form::Macro => is_macro_name(name),
        Form::Title => is_title(name),
    }
}

#[tactic(auto, unfolding(json_form::specs::Places::text_that))]
fn name_of_form(alloc: Global, form: Form, at: &At<'_, '_>) -> Result<Text, ReadError>
    ensures { Gives result (text_that (has_form form) (place_of at.now)) }
{
    let name = at.text(alloc)?;
    if !has_form(form, name.as_bytes()) {
        return Err(at.refused(alloc, Cause::BadMember));
    }
    Ok(name)
}

/// The name of this form at the place, if it is free; it is taken from then on.
#[tactic(auto, unfolding(crate::specs::Words::new_name))]
pub(crate) fn new_name(
    alloc: Global,
    form: Form,
    taken: &mut Names,
    at: &At<'_, '_>,
) -> Result<Text, ReadError>
    ensures gives { Gives result (new_name (has_form form) taken.old (place_of at.now)) }
    ensures taken { IfOk result (λ name. taken.new ≡ taken.old ++ name ∷ []) }
{
    let name = name_of_form(alloc, form, at)?;
    at.free(alloc, taken, name)
}
