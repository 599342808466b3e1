//! The host groups of problems.

ghost use Rattle.std.specs.Prelude.{◌≡◌, option_copied, find, bytes_eq};
ghost use Rattle.zbx_types.specs.Groups.{groups_of};

use crate::conf::{Conf, Host};
use crate::entries::Rec;
use crate::text::Text;

/// The first host with a name.
fn host_named<'a>(hosts: &'a [Host], name: &[u8]) -> Option<&'a Host>
    ensures { option_copied result ≡ find (λ host. bytes_eq host.name name.now) hosts.now }
{
    for host in hosts {
        if host.name.as_bytes() == name {
            return Some(host);
        }
    }
    None
}

/// The groups of a problem's host (the Zabbix 6.0 manual, "Hosts and host groups"). None of a record that is no problem,
/// and of a problem whose host the configuration doesn't have.
pub fn groups_of<'a>(conf: &'a Conf, problem: &Rec) -> &'a [Text]
    ensures { result.now ≡ groups_of conf.now problem.now }
{
    match host_named(conf.hosts.as_slice(), problem.host()) {
        Some(host) => host.groups.as_slice(),
        None => &[],
    }
}
