//! What comes of a value at the end of a chain.

ghost use Rattle.std.specs.Prelude.{◌≡◌, IfOk};
ghost use Rattle.preprocess.specs.Chain.{number_ended, read_as, ended_as};

use prep_steps::Outcome;
use std::alloc::Global;
use zbx_types::{Fix, Held, OutOfMemory, Text, ValueType, unpadded};

/// What comes of a value behind all steps of its item (the Zabbix 6.0 manual, "Item value preprocessing").
#[derive(Drop)]
pub enum Ended {
    /// The item stores it.
    Stored {
        /// The value, as the item keeps it.
        held: Held,
        /// Its text, which goes to dependent items: of a number its written form.
        text: Text,
    },
    /// It is dropped without an error.
    Discarded,
    /// It fails with this text.
    Failed(Text),
}

fn number_end(alloc: Global, number: Option<Fix>) -> Result<Ended, OutOfMemory>
    ensures { IfOk result (λ ended. ended ≡ number_ended number) }
{
    let Some(number) = number else {
        return Ok(Ended::Failed(Text::of(alloc, "value: not a number")?));
    };
    let mut text = Text::new(alloc);
    number.write(&mut text)?;
    Ok(Ended::Stored {
        held: Held::Number(number),
        text,
    })
}

/// The last reading of a value.
#[tactic(auto, unfolding(prep_steps::specs::Numbering::number_of))]
fn read_as(alloc: Global, value_type: ValueType, text: Text) -> Result<Ended, OutOfMemory>
    ensures { IfOk result (λ ended. ended ≡ read_as value_type text) }
{
    match value_type {
        ValueType::Number => number_end(alloc, Fix::read(unpadded(text.as_bytes()))),
        ValueType::Words => Ok(Ended::Stored {
            held: Held::Words(text.copy(alloc)?),
            text,
        }),
    }
}

/// What comes of an outcome of the steps.
pub(crate) fn end(
    alloc: Global,
    value_type: ValueType,
    outcome: Outcome,
) -> Result<Ended, OutOfMemory>
    ensures { IfOk result (λ ended. ended ≡ ended_as value_type outcome) }
{
    match outcome {
        Outcome::Value(text) => read_as(alloc, value_type, text),
        Outcome::Discard => Ok(Ended::Discarded),
        Outcome::Fail(why) => Ok(Ended::Failed(why)),
    }
}
