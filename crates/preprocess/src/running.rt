//! An entry's value, from its coming to the cells.

ghost use Rattle.std.specs.Prelude.{◌≡◌, IfOk, OnOk, OnErr};
ghost use Rattle.preprocess.specs.Cells.{AreSame, Becomes, visits_in};
ghost use Rattle.preprocess.specs.Draft.{failures_of, AreIn};
ghost use Rattle.preprocess.specs.Visits.{ArePatternsOf};

use crate::cells::Cells;
use crate::chains::Chains;
use crate::draft::{Prepared, commit, prepare};
use pattern_set::Patterns;
use std::alloc::Global;
use value_cache::Cache;
use zbx_types::{Conf, Many, Moment, OutOfMemory, Rec, Text};

/// Takes the value of the entry with a number, of a time, at a moment that isn't before that of an earlier value, and
/// answers the Failure records: what
/// [`prepare`](crate::prepare) finds is put in place by [`commit`](crate::commit). It finds anew what
/// [`Chains`](crate::Chains) keeps, so that a caller of many values calls these two.
///
/// The pattern of each step is among `patterns`. At [`OutOfMemory`] the cells keep what they did.
#[tactic(auto, using(crate::proofs::Becoming::same_becomes))]
pub fn run(
    alloc: Global,
    conf: &Conf,
    patterns: &Patterns,
    cache: &Cache,
    cells: &mut Cells,
    item: u32,
    value: &Text,
    time: Moment,
    now: Moment,
    number: u64,
) -> Result<Many<Rec>, OutOfMemory>
    requires { ArePatternsOf conf.now patterns.now }
    ensures failures { IfOk result (λ failures. failures ≡ failures_of conf.now number (visits_in conf.now cells.old (record { item = item; time = time; number = number; value = value.now }))) }
    ensures cells { OnOk result (Becomes now (visits_in conf.now cells.old (record { item = item; time = time; number = number; value = value.now })) cells.old cells.new) }
    ensures err { OnErr result (AreSame cells.new cells.old) }
    ensures of { AreIn cache.now cells.old.cells.items → AreIn cache.now cells.new.cells.items }
{
    let chains = Chains::build(alloc, conf, patterns)?;
    let Prepared { draft, failures } = prepare(
        alloc, conf, patterns, &chains, cache, cells, item, value, time, number,
    )?;
    commit(cells, draft, now);
    Ok(failures)
}
