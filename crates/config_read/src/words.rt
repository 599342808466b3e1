//! The words of items and triggers.

ghost use Rattle.config_read.specs.Words.{item_kind, value_type, step_kind, on_fail, recovery_mode, matching, tag_op};

use json_form::Words;
use zbx_types::{ItemKind, Matching, OnFail, RecoveryMode, StepKind, TagOp, ValueType};

/// `trapper`, `dependent`, `active`.
pub(crate) struct ItemKinds;

impl Words for ItemKinds {
    type Meaning = ItemKind;

    ghost meaning = { item_kind };

    fn named(text: &str) -> Option<ItemKind> {
        match text {
            "trapper" => Some(ItemKind::Trapper),
            "dependent" => Some(ItemKind::Dependent),
            "active" => Some(ItemKind::Active),
            _ => None,
        }
    }
}

/// `number`, `text`.
pub(crate) struct ValueTypes;

impl Words for ValueTypes {
    type Meaning = ValueType;

    ghost meaning = { value_type };

    fn named(text: &str) -> Option<ValueType> {
        match text {
            "number" => Some(ValueType::Number),
            "text" => Some(ValueType::Words),
            _ => None,
        }
    }
}

/// The names of preprocessing steps.
pub(crate) struct StepKinds;

impl Words for StepKinds {
    type Meaning = StepKind;

    ghost meaning = { step_kind };

    fn named(text: &str) -> Option<StepKind> {
        match text {
            "regex" => Some(StepKind::Regex),
            "replace" => Some(StepKind::Replace),
            "trim" => Some(StepKind::Trim),
            "ltrim" => Some(StepKind::LTrim),
            "rtrim" => Some(StepKind::RTrim),
            "jsonpath" => Some(StepKind::JsonPath),
            "multiplier" => Some(StepKind::Multiplier),
            "simple_change" => Some(StepKind::SimpleChange),
            "change_per_second" => Some(StepKind::ChangePerSecond),
            "bool_to_decimal" => Some(StepKind::BoolToDecimal),
            "octal_to_decimal" => Some(StepKind::OctalToDecimal),
            "hex_to_decimal" => Some(StepKind::HexToDecimal),
            "in_range" => Some(StepKind::InRange),
            "matches" => Some(StepKind::Matches),
            "not_matches" => Some(StepKind::NotMatches),
            "json_error" => Some(StepKind::JsonError),
            "regex_error" => Some(StepKind::RegexError),
            "throttle" => Some(StepKind::Throttle),
            "throttle_heartbeat" => Some(StepKind::ThrottleHeartbeat),
            _ => None,
        }
    }
}

/// `empty`, `discard`, `value`, `error`.
pub(crate) struct Fallbacks;

impl Words for Fallbacks {
    type Meaning = OnFail;

    ghost meaning = { on_fail };

    fn named(text: &str) -> Option<OnFail> {
        match text {
            "empty" => Some(OnFail::Empty),
            "discard" => Some(OnFail::Discard),
            "value" => Some(OnFail::Value),
            "error" => Some(OnFail::Error),
            _ => None,
        }
    }
}

/// `expression`, `recovery_expression`, `none`.
pub(crate) struct RecoveryModes;

impl Words for RecoveryModes {
    type Meaning = RecoveryMode;

    ghost meaning = { recovery_mode };

    fn named(text: &str) -> Option<RecoveryMode> {
        match text {
            "expression" => Some(RecoveryMode::Expression),
            "recovery_expression" => Some(RecoveryMode::RecoveryExpression),
            "none" => Some(RecoveryMode::Nothing),
            _ => None,
        }
    }
}

/// `and`, `or`.
pub(crate) struct Matchings;

impl Words for Matchings {
    type Meaning = Matching;

    ghost meaning = { matching };

    fn named(text: &str) -> Option<Matching> {
        match text {
            "and" => Some(Matching::And),
            "or" => Some(Matching::Or),
            _ => None,
        }
    }
}

/// `equals`, `contains`, `not_equals`, `not_contains`.
pub(crate) struct TagOps;

impl Words for TagOps {
    type Meaning = TagOp;

    ghost meaning = { tag_op };

    fn named(text: &str) -> Option<TagOp> {
        match text {
            "equals" => Some(TagOp::Equals),
            "contains" => Some(TagOp::Contains),
            "not_equals" => Some(TagOp::NotEquals),
            "not_contains" => Some(TagOp::NotContains),
            _ => None,
        }
    }
}
