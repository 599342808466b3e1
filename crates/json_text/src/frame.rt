//! What was read so far: values, and the containers that are open.

ghost use Rattle.std.specs.Prelude.{◌≡◌, ◌∷◌, [], length, OnOk};
ghost use Rattle.json_text.specs.Parts.{IsPopped};
ghost use Rattle.json_text.specs.Trees.{json_of};

use crate::naming::Fields;
use crate::tree::{Tree, Trees};
use std::alloc::Global;
use std::marker::Model;
use zbx_types::{OutOfMemory, Text};

/// A value. Contracts see it as a plain tree.
#[derive(Drop)]
pub(crate) struct Read {
    tree: Tree,
}

impl Model for Read {
    ghost use Rattle.json_text.specs.Json.{Json};
    ghost use Rattle.json_text.specs.JsonCode.{json_code};

    ghost Value = { Json };

    ghost coded = { json_code };

    ghost use Rattle.json_text.specs.Trees.{json_of};

    ghost view = { λ r. json_of r.tree };
}

impl Read {
    pub(crate) fn new(tree: Tree) -> Read
        ensures { result ≡ json_of tree }
    {
        Read { tree }
    }

    pub(crate) fn into_tree(self) -> Tree
        ensures { json_of result ≡ self }
    {
        self.tree
    }
}

/// A container that is open around the value being read.
#[derive(Drop)]
pub(crate) enum Frame {
    /// An array with its items so far.
    Array(Trees),
    /// An object with its members so far, and the name of the value.
    Object(Fields, Text),
}

/// The open containers. Contracts see the innermost first.
#[derive(Drop)]
pub(crate) struct Stack {
    frames: Vec<Frame>,
}

impl Model for Stack {
    ghost use Rattle.std.specs.Prelude.{List, reverse};
    ghost use Rattle.json_text.specs.declared.frame.Frame.{Frame};

    ghost Value = { List Frame };

    ghost use Rattle.std.specs.Coded.{coded_list};
    ghost use Rattle.json_text.specs.contracts.frame.Frame as frame;

    ghost coded = { coded_list frame.the_row.coded };

    ghost view = { λ s. reverse s.frames.items };
}

impl Stack {
    pub(crate) fn new(alloc: Global) -> Stack
        ensures { result ≡ [] }
    {
        Stack {
            frames: Vec::new(alloc),
        }
    }

    pub(crate) fn len(&self) -> usize
        ensures { result ≡ length self.now }
    {
        self.frames.len()
    }

    /// Opens a container inside the others.
    #[inline(always)]
    pub(crate) fn push(&mut self, frame: Frame) -> Result<(), OutOfMemory>
        ensures { OnOk result (self.new ≡ frame ∷ self.old) }
    {
        self.frames.push(frame)?;
        Ok(())
    }

    /// Takes the innermost container out.
    #[inline(always)]
    pub(crate) fn pop(&mut self) -> Option<Frame>
        ensures { IsPopped self.old result self.new }
    {
        self.frames.pop()
    }
}
