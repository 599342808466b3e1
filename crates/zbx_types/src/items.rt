//! Items of the configuration.

ghost use Rattle.std.specs.Prelude.{◌≡◌};
ghost use Rattle.zbx_types.specs.Items.{is_trapper_kind, is_received_kind, takes_values};

use crate::many::Many;
use crate::steps::StepSpec;
use crate::text::Text;

/// An item: something of a host of which values come (the Zabbix 6.0 manual, "Items").
#[derive(Drop)]
pub struct Item {
    /// Its host's id.
    pub host: u32,
    /// Its key, with its parameters. No other item of the host has it.
    pub key: Text,
    /// Where its values come from.
    pub kind: ItemKind,
    /// The id of its master item, or 0 where it has none.
    pub master: u32,
    /// What its values are.
    pub value_type: ValueType,
    /// Whether it takes values.
    pub enabled: bool,
    /// Its preprocessing steps, in their order.
    pub steps: Many<StepSpec>,
    /// After how many seconds an agent is to bring its next value, 1 to 86,400; 0 where no agent is asked for it.
    pub delay: u32,
}

/// Where an item's values come from (the Zabbix 6.0 manual, "Item types").
#[derive(Clone, Copy, Debug, PartialEq, Eq)]
pub enum ItemKind {
    /// Senders send them ("Trapper items").
    Trapper,
    /// They are made of those of its master item ("Dependent items").
    Dependent,
    /// An agent asks for the item and sends them by itself ("Zabbix agent", active checks). No document has such an
    /// item yet.
    Active,
}

/// What the values of an item are (the Zabbix 6.0 manual, "Creating an item", type of information).
#[derive(Clone, Copy, Debug, PartialEq, Eq)]
pub enum ValueType {
    /// Numbers with six decimals.
    Number,
    /// Texts.
    Words,
}

impl ItemKind {
    /// Whether senders may send its values.
    pub fn is_trapper(self) -> bool
        ensures { result ≡ is_trapper_kind self }
    {
        match self {
            ItemKind::Trapper => true,
            ItemKind::Dependent | ItemKind::Active => false,
        }
    }

    /// Whether its values are received, from senders or agents, and not made of those of a master item.
    pub fn is_received(self) -> bool
        ensures { result ≡ is_received_kind self }
    {
        match self {
            ItemKind::Trapper | ItemKind::Active => true,
            ItemKind::Dependent => false,
        }
    }
}

impl Item {
    /// Whether an entry may bring a value for it: its values are received, and it is enabled.
    pub fn takes_values(&self) -> bool
        ensures { result ≡ takes_values self.now }
    {
        self.kind.is_received() && self.enabled
    }
}
