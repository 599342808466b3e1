//! Preprocessing steps of items.

ghost use Rattle.std.specs.Prelude.{◌≡◌};
ghost use Rattle.zbx_types.specs.Steps.{has_pattern};

use crate::many::Many;
use crate::text::Text;

/// A preprocessing step (the Zabbix 6.0 manual, "Item value preprocessing").
#[derive(Drop)]
pub struct StepSpec {
    /// What it does.
    pub kind: StepKind,
    /// Its parameters, as many as its kind has.
    pub params: Many<Text>,
    /// What comes of a value at which it fails ("Custom on fail").
    pub on_fail: OnFail,
    /// The value or the error text that `on_fail` sets.
    pub text: Text,
}

/// What comes of a value at which a preprocessing step fails (the Zabbix 6.0 manual, "Item value preprocessing", custom
/// on fail).
#[derive(Clone, Copy, Debug, PartialEq, Eq)]
pub enum OnFail {
    /// Nothing is set: the value fails with the step's own error.
    Empty,
    /// The value is dropped without an error.
    Discard,
    /// The step's text stands in place of the value.
    Value,
    /// The value fails with the step's text as its error.
    Error,
}

/// What a preprocessing step does (the Zabbix 6.0 manual, "Item value preprocessing").
#[derive(Clone, Copy, Debug, PartialEq, Eq)]
pub enum StepKind {
    /// Regular expression: an output made of the leftmost match. Parameters: pattern, output.
    Regex,
    /// Replace: each occurrence of a text by another. Parameters: the text, the other.
    Replace,
    /// Trim: characters dropped at both ends. Parameter: the characters.
    Trim,
    /// Left trim: characters dropped at the front. Parameter: the characters.
    LTrim,
    /// Right trim: characters dropped at the end. Parameter: the characters.
    RTrim,
    /// JSONPath: what a path selects. Parameter: the path.
    JsonPath,
    /// Custom multiplier: the product with a number. Parameter: the number.
    Multiplier,
    /// Simple change: the value less the previous one. No parameter.
    SimpleChange,
    /// Change per second: the value less the previous one, over the seconds between them. No parameter.
    ChangePerSecond,
    /// Boolean to decimal: words of truth as 1 and 0. No parameter.
    BoolToDecimal,
    /// Octal to decimal. No parameter.
    OctalToDecimal,
    /// Hexadecimal to decimal. No parameter.
    HexToDecimal,
    /// In range: the value fails outside it. Parameters: least and greatest value, of which one may be empty.
    InRange,
    /// Matches regular expression: a value that doesn't match fails. Parameter: the pattern.
    Matches,
    /// Does not match regular expression: a value that matches fails. Parameter: the pattern.
    NotMatches,
    /// Check for error in JSON: the value fails with the text at a path. Parameter: the path.
    JsonError,
    /// Check for error using a regular expression: a value that matches fails with an output. Parameters: pattern, output.
    RegexError,
    /// Discard unchanged: a value equal to the last that passed is dropped. No parameter.
    Throttle,
    /// Discard unchanged with heartbeat: such a value is dropped within a period. Parameter: the period.
    ThrottleHeartbeat,
}

impl StepKind {
    /// Whether its first parameter is a pattern.
    pub fn has_pattern(self) -> bool
        ensures { result ≡ has_pattern self }
    {
        match self {
            StepKind::Regex | StepKind::Matches | StepKind::NotMatches | StepKind::RegexError => {
                true
            }
            _ => false,
        }
    }
}
