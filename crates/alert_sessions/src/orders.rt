//! What is run for notes.

ghost use Rattle.std.specs.Prelude.{◌≡◌, ◌<◌, length, All};

use alert_run::Note;
use zbx_types::{Many, Text};

/// Notes, and the program that is run for each.
#[derive(Drop)]
pub struct Orders {
    /// The notes, from note 1 on.
    pub notes: Many<Note>,
    /// The recipient of each, as a place among the commands.
    pub homes: Vec<u32>,
    /// The program of each recipient.
    pub commands: Many<Text>,
    ghost told: { length homes.items ≡ length notes },
    ghost there: { All (λ home. home < length commands) homes.items },
}
