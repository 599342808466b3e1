//! The configuration in flat form, in the words of the Zabbix 6.0 manual. Ranges, here and in the parts, are those that the
//! document is held to when it is read (this project's own).

ghost use Rattle.std.specs.Prelude.{◌≡◌};
ghost use Rattle.zbx_types.specs.Ids.{at_id};
ghost use Rattle.zbx_types.specs.Hosts.{host_name};

use crate::actions::Action;
use crate::ids::by_id;
use crate::items::Item;
use crate::maintenances::Maintenance;
use crate::many::Many;
use crate::rules::Rule;
use crate::text::Text;
use crate::triggers::Trigger;
use std::convert::AsStr;

/// The configuration in the flat form in which it is used: templates are laid out over their hosts, user macros are
/// expanded, and names of hosts, items and triggers are ids where that is possible. Ids count from 1.
#[derive(Drop)]
pub struct Conf {
    /// The text of the configuration document.
    pub text: Text,
    /// Local time less UTC, in seconds, from -50,400 to 50,400.
    pub utc_offset: i32,
    /// The hosts, in the document's order.
    pub hosts: Many<Host>,
    /// The items of all hosts.
    pub items: Many<Item>,
    /// The triggers of all hosts.
    pub triggers: Many<Trigger>,
    /// The rules of global correlation.
    pub correlations: Many<Rule>,
    /// The maintenances.
    pub maintenances: Many<Maintenance>,
    /// The actions.
    pub actions: Many<Action>,
    /// The regular expressions that steps and calls use, each once, in the order of first use.
    pub patterns: Many<Text>,
    /// For each pattern the JSON pointer to the member of the document that uses it first.
    pub pattern_paths: Many<Text>,
}

/// A host (the Zabbix 6.0 manual, "Hosts and host groups").
#[derive(Drop)]
pub struct Host {
    /// Its name, of 1 to 128 bytes. No other host has it.
    pub name: Text,
    /// The names of the host groups that it is in.
    pub groups: Many<Text>,
    /// Whether it is monitored.
    pub enabled: bool,
}

impl Conf {
    /// The name of the host with an id, empty where there is none.
    pub fn host_name(&self, id: u32) -> &str
        ensures { result.now ≡ host_name (at_id self.now.hosts id) }
    {
        match by_id(self.hosts.as_slice(), id) {
            Some(host) => host.name.as_str(),
            None => "",
        }
    }
}
