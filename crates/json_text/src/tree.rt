//! JSON values as trees.

ghost use Rattle.std.specs.Prelude.{◌≡◌, OnOk, OnErr};
ghost use Rattle.json_text.specs.Json.{add};
ghost use Rattle.json_text.specs.Trees.{json_of, items_of, members_of};

use std::marker::Model;
use zbx_types::{OutOfMemory, Text};

/// A JSON value (RFC 8259, "Values"), which owns its texts. Contracts see it as a plain tree, without where it lies in
/// memory.
#[cycle(tree)]
#[derive(Drop)]
pub enum Tree {
    /// `null`.
    Null,
    /// `true` or `false`.
    Bool(bool),
    /// A number: its text, as it was written.
    Number(Text),
    /// A string: its text, without quotes and escapes.
    Words(Text),
    /// An array.
    List(Trees),
    /// An object.
    Object(Members),
}

/// A member of an object: a name with a value.
#[cycle(tree)]
#[derive(Drop)]
pub struct Member {
    /// Its name, without quotes and escapes.
    pub name: Text,
    /// Its value.
    pub value: Tree,
}

/// The items of an array, in order. Contracts see them as plain trees.
#[cycle(tree)]
#[derive(Drop)]
pub struct Trees {
    trees: Vec<Tree>,
}

/// The members of an object, in order. Contracts see them as plain trees.
#[cycle(tree)]
#[derive(Drop)]
pub struct Members {
    members: Vec<Member>,
}

impl Model for Trees {
    ghost use Rattle.json_text.specs.Json.{Items, items_size};
    ghost use Rattle.json_text.specs.JsonCode.{items_code};

    ghost Value = { Items };

    ghost coded = { items_code };

    ghost use Rattle.json_text.specs.Trees.{items_of};

    ghost view = { λ t. items_of t.trees.items };

    ghost size = { items_size };

    ghost use Rattle.json_text.specs.TreeFalls.{items_fall};

    ghost size_decreases = { λ t h. items_fall t.trees.items };
}

impl Model for Members {
    ghost use Rattle.json_text.specs.Json.{Members, members_size};
    ghost use Rattle.json_text.specs.JsonCode.{members_code};

    ghost Value = { Members };

    ghost coded = { members_code };

    ghost use Rattle.json_text.specs.Trees.{members_of};

    ghost view = { λ m. members_of m.members.items };

    ghost size = { members_size };

    ghost use Rattle.json_text.specs.TreeFalls.{members_fall};

    ghost size_decreases = { λ m h. members_fall m.members.items };
}

impl Trees {
    /// The items.
    pub fn as_slice(&self) -> &[Tree]
        ensures { items_of result.now ≡ self.now }
    {
        self.trees.as_slice()
    }

    /// Adds an item at the end. At [`OutOfMemory`] the list is as before, and the item is dropped.
    pub fn push(&mut self, tree: Tree) -> Result<(), OutOfMemory>
        ensures ok { OnOk result (self.new ≡ add self.old (json_of tree)) }
        ensures err { OnErr result (self.new ≡ self.old) }
    {
        self.trees.push(tree)?;
        Ok(())
    }

    /// A list of trees. Takes no memory.
    pub fn from_vec(trees: Vec<Tree>) -> Trees
        ensures { result ≡ items_of trees.items }
    {
        Trees { trees }
    }
}

impl Members {
    /// The members.
    pub fn as_slice(&self) -> &[Member]
        ensures { members_of result.now ≡ self.now }
    {
        self.members.as_slice()
    }

    /// A list of members. Takes no memory.
    pub fn from_vec(members: Vec<Member>) -> Members
        ensures { result ≡ members_of members.items }
    {
        Members { members }
    }
}
