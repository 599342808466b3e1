//! The configuration as its document is written: names, keys and expressions are still texts.

use zbx_types::{
    Action, ItemKind, Maintenance, Many, RecoveryMode, Rule, StepSpec, Tag, Text, ValueType,
};

/// The configuration of a document (this project's own).
#[derive(Drop)]
pub struct RawConf {
    /// Local time less UTC, in seconds, from -50,400 to 50,400.
    pub utc_offset: i32,
    /// The global user macros (the Zabbix 6.0 manual, "User macros").
    pub macros: Many<RawMacro>,
    /// The templates, 1,000 at most.
    pub templates: Many<RawHost>,
    /// The hosts, 1,000 at most. No two of the hosts and templates have one name.
    pub hosts: Many<RawHost>,
    /// The rules of global correlation, 32 at most, with distinct names.
    pub correlations: Many<Rule>,
    /// The maintenances, 256 at most, with distinct names.
    pub maintenances: Many<Maintenance>,
    /// The actions, 64 at most, with distinct names.
    pub actions: Many<Action>,
}

/// A user macro (the Zabbix 6.0 manual, "User macros").
#[derive(Drop)]
pub struct RawMacro {
    /// Its name, `{$NAME}`.
    pub name: Text,
    /// What stands in its place.
    pub value: Text,
}

/// A host or a template (the Zabbix 6.0 manual, "Configuring a host", "Configuring a template").
#[derive(Drop)]
pub struct RawHost {
    /// Its name, 1 to 128 bytes.
    pub name: Text,
    /// The templates that it is linked to, by name, each once.
    pub templates: Many<Text>,
    /// Its user macros, with distinct names.
    pub macros: Many<RawMacro>,
    /// Its own items.
    pub items: Many<RawItem>,
    /// Its own triggers, with distinct names.
    pub triggers: Many<RawTrigger>,
    /// The host groups that it is in, by name. A template has none.
    pub groups: Many<Text>,
    /// Whether it is monitored. A template is.
    pub enabled: bool,
}

/// An item (the Zabbix 6.0 manual, "Creating an item").
#[derive(Drop)]
pub struct RawItem {
    /// Its key.
    pub key: Text,
    /// Where its values come from.
    pub kind: ItemKind,
    /// The key of its master item, or empty where it is no dependent item.
    pub master: Text,
    /// What its values are.
    pub value_type: ValueType,
    /// Whether it takes values.
    pub enabled: bool,
    /// Its preprocessing steps, 32 at most.
    pub steps: Many<StepSpec>,
    /// After how many seconds an agent is to bring its next value, 1 to 86,400, or 0 where it is no active item.
    pub delay: u32,
}

/// A trigger (the Zabbix 6.0 manual, "Configuring a trigger").
#[derive(Drop)]
pub struct RawTrigger {
    /// Its name, 1 to 255 bytes.
    pub name: Text,
    /// The problem expression.
    pub expression: Text,
    /// How its problems close.
    pub recovery: RecoveryMode,
    /// The recovery expression, or empty in the modes that have none.
    pub recovery_expression: Text,
    /// Whether it makes a problem at each value at which it is true.
    pub multiple: bool,
    /// The tag whose values must match for one problem to close, or empty where all close.
    pub close_tag: Text,
    /// Its severity, from 0 (Not classified) to 5 (Disaster).
    pub severity: u8,
    /// Its tags, 16 at most.
    pub tags: Many<Tag>,
    /// The triggers that it depends on.
    pub depends: Many<RawDepend>,
    /// Whether it is evaluated.
    pub enabled: bool,
}

/// A trigger that another one depends on (the Zabbix 6.0 manual, "Trigger dependencies").
#[derive(Drop)]
pub struct RawDepend {
    /// Its host, or empty for the host of the trigger that depends on it.
    pub host: Text,
    /// Its name.
    pub trigger: Text,
}
