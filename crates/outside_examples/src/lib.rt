//! Worked examples of the outside: sources, sinks, disks, wires and gates in memory, and the real ones over files and
//! sockets. A crate with tests is proved twice, so those of `outside` and `wire_mio` stand here. The cases of a test are
//! lines of one text, since a proof pays for each assertion and for each value that lives over a way out.
#![tactic(auto)]

#[cfg(test)]
mod files;
#[cfg(test)]
mod in_memory;
#[cfg(test)]
mod ports;
#[cfg(test)]
mod rows;
#[cfg(test)]
mod sockets;
