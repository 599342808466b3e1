//! The least of many keys that change one by one.

ghost use Rattle.std.specs.Prelude.{◌≡◌, ◌≤◌, ◌<◌, ◌+◌, ◌-◌, ◌^◌, ℕ, length, drop, replicate, slice_index, slice_set, IfOk};
ghost use Rattle.alert_queue.specs.Tree.{IsTree};

use std::alloc::{AllocError, Global};
use std::marker::Model;

/// No key: more than each.
pub(crate) const NONE: u64 = u64::MAX;

/// Keys, of which the least is found at once and each is changed in the time of a path. Contracts see the keys.
#[derive(Drop)]
pub(crate) struct Least {
    size: usize,
    nodes: Vec<u64>,
}

impl Model for Least {
    ghost use Rattle.std.specs.Prelude.{ℕ, List, drop};

    ghost Value = { List ℕ };

    ghost use Rattle.alert_queue.specs.Tree.{IsTree};

    ghost view = { λ l. drop l.size l.nodes.items };

    ghost invariant = { λ l. IsTree l.size l.nodes.items };
}

/// Changes a key, and then what stands above it.
fn put(nodes: &mut [u64], size: usize, place: usize, key: u64)
    requires tree { IsTree size nodes.old }
    requires inside { place < size }
    ensures tree { IsTree size nodes.new }
    ensures keys { drop size nodes.new ≡ slice_set (drop size nodes.old) place key }
{
    let mut at = size + place;
    nodes[at] = key;
    while at > 1 {
        at /= 2;
        let lesser = nodes[2 * at].min(nodes[2 * at + 1]);
        nodes[at] = lesser;
    }
}

/// The place of a least key.
fn find(nodes: &[u64], size: usize) -> usize
    requires { IsTree size nodes.now }
    ensures inside { result < size }
    ensures least { (j : ℕ) → j < size → slice_index nodes.now (size + result) ≤ slice_index nodes.now (size + j) }
{
    let mut at = 1;
    while at < size {
        at = if nodes[2 * at] == nodes[at] {
            2 * at
        } else {
            2 * at + 1
        };
    }
    at - size
}

impl Least {
    /// So many places without keys.
    pub(crate) fn new(alloc: Global, size: u32) -> Result<Least, AllocError>
        requires { 0 < size }
        ensures { IfOk result (λ keys. keys ≡ replicate size (2 ^ 64 - 1)) }
    {
        let size = size as usize;
        let nodes = vec![in alloc; NONE; 2 * size]?;
        Ok(Least { size, nodes })
    }

    /// Changes the key at a place. Takes no memory.
    pub(crate) fn set(&mut self, place: usize, key: u64)
        requires { place < length self.old }
        ensures { self.new ≡ slice_set self.old place key }
    {
        put(&mut self.nodes, self.size, place, key);
    }

    /// The place of a least key.
    pub(crate) fn place(&self) -> usize
        ensures inside { result < length self.now }
        ensures least { (j : ℕ) → j < length self.now → slice_index self.now result ≤ slice_index self.now j }
    {
        find(self.nodes.as_slice(), self.size)
    }

    /// The key at a place.
    pub(crate) fn key(&self, place: usize) -> u64
        requires { place < length self.now }
        ensures { result ≡ slice_index self.now place }
    {
        self.nodes[self.size + place]
    }
}
