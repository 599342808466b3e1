//! Where preprocessing steps stand in the document, and refusals of them.

ghost use Rattle.std.specs.Prelude.{◌≡◌, ◌++◌, IfOk};
ghost use Rattle.host_layout.specs.Elements.{IsRefusal};
ghost use Rattle.host_layout.specs.PlacedSteps.{step_path, param_path};

use crate::fault::FlatError;
use crate::refusals::member_pointer;
use crate::templates::sources::Source;
use json_form::element;
use std::alloc::Global;
use std::convert::AsStr;
use zbx_types::{Cause, OutOfMemory, Text};

/// Where a step stands: its source, and the places of its item and of itself, counted from 0.
#[derive(Clone, Copy)]
pub(crate) struct StepPlace<'p, 'r> {
    pub source: &'p Source<'r>,
    pub item: usize,
    pub step: usize,
}

impl StepPlace<'_, '_> {
    /// The pointer to the step.
    fn pointer(self, alloc: Global) -> Result<Text, OutOfMemory>
        ensures { IfOk result (λ t. t ≡ step_path self.entry) }
    {
        let steps = member_pointer(alloc, self.source, "/items", self.item, "/steps")?;
        element(alloc, steps.as_str(), self.step)
    }

    /// The pointer to one of its members, which is named with its `/`.
    pub(crate) fn member(self, alloc: Global, member: &str) -> Result<Text, OutOfMemory>
        ensures { IfOk result (λ t. t ≡ step_path self.entry ++ member.now) }
    {
        let mut path = self.pointer(alloc)?;
        path.push_str(member)?;
        Ok(path)
    }

    /// The pointer to one of its parameters.
    fn param(self, alloc: Global, param: usize) -> Result<Text, OutOfMemory>
        ensures { IfOk result (λ t. t ≡ param_path self.entry param) }
    {
        let params = self.member(alloc, "/params")?;
        element(alloc, params.as_str(), param)
    }

    /// The refusal of one of its members.
    pub(crate) fn refused_member(self, alloc: Global, member: &str, cause: Cause) -> FlatError
        ensures { IsRefusal (step_path self.entry ++ member.now) cause result }
    {
        match self.member(alloc, member) {
            Ok(path) => FlatError::Refused { path, cause },
            Err(OutOfMemory) => FlatError::OutOfMemory,
        }
    }

    /// The refusal of one of its parameters.
    pub(crate) fn refused_param(self, alloc: Global, param: usize, cause: Cause) -> FlatError
        ensures { IsRefusal (param_path self.entry param) cause result }
    {
        match self.param(alloc, param) {
            Ok(path) => FlatError::Refused { path, cause },
            Err(OutOfMemory) => FlatError::OutOfMemory,
        }
    }
}
