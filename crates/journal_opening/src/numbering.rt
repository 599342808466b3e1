//! The entries of a journal are numbered, the texts of their Configs are taken, and they are judged, group by group.

ghost use Rattle.std.specs.Prelude.{◌≡◌, ◌≤◌, ◌++◌, ◌∷◌, [], map, List, None, All, MatchBool, IfSome, IfOk, OnOk};
ghost use Rattle.zbx_types.specs.Bases.{empty_base};
ghost use Rattle.zbx_types.specs.declared.base.Base.{Base};
ghost use Rattle.intake_journal.specs.Based.{most_counted};
ghost use Rattle.intake_journal.specs.declared.format.Group.{Group};
ghost use Rattle.intake_front.specs.Intake.{with_group};
ghost use Rattle.intake_front.specs.Standing.{StandsFor};
ghost use Rattle.base_laws.specs.Grounds.{start_of};
ghost use Rattle.journal_opening.specs.Recovered.{AreTaken, AreJudged, IsNumbered};
ghost use Rattle.journal_opening.specs.Replayed.{flat, IsFlat, IsGoodBase, texts_in};

use crate::basing::put_base;
use config_templates::{FlatError, flat};
use intake_front::Judge;
use intake_journal::Group;
use std::alloc::Global;
use zbx_types::{Base, Conf, Entry, Many, Numbered, OutOfMemory, Text};

/// What the groups of a journal come to that were read: the number of its base; their entries, numbered behind it; the
/// configurations of the base, where it has one, and of the Configs among them, in their order; the place of the first
/// group with a Config whose text is refused, where there is one; that of the first group whose entries don't fit, where
/// there is one; and the judge of the next group, where there is neither. Behind a text that is refused no configurations
/// are told, and nothing is judged.
#[derive(Drop)]
pub(crate) struct Numbering {
    pub before: u64,
    pub entries: Many<Numbered>,
    pub confs: Vec<Conf>,
    pub refused: Option<u64>,
    pub misfit: Option<u64>,
    pub judge: Judge,
}

/// Adds the configuration of a text, and answers true, or false where the text is refused.
fn put_flat(alloc: Global, confs: &mut Vec<Conf>, text: &Text) -> Result<bool, OutOfMemory>
    ensures { IfOk result (λ taken. MatchBool taken
        (IsFlat text.now × (confs.new.items ≡ confs.old.items ++ flat text.now ∷ [])) (¬ (IsFlat text.now))) }
{
    match flat(alloc, text.as_bytes()) {
        Ok(conf) => {
            confs.push(conf)?;
            Ok(true)
        }
        Err(FlatError::Refused { .. }) => Ok(false),
        Err(FlatError::OutOfMemory) => Err(OutOfMemory),
    }
}

/// Adds the configuration of an entry, where it is a Config, and answers true, or false where its text is refused.
fn put_entry(alloc: Global, confs: &mut Vec<Conf>, entry: &Entry) -> Result<bool, OutOfMemory>
    ensures { IfOk result (λ taken. MatchBool taken
        (All IsFlat (texts_in (entry.now ∷ [])) × (confs.new.items ≡ confs.old.items ++ map flat (texts_in (entry.now ∷ []))))
        (¬ (All IsFlat (texts_in (entry.now ∷ []))))) }
{
    match entry {
        Entry::Config { text, .. } => put_flat(alloc, confs, text),
        Entry::Value { .. } | Entry::Tick { .. } => Ok(true),
    }
}

/// Adds the configurations of the Configs among the entries of a group, in their order, and answers true, or false
/// where the text of one of them is refused.
fn put_group(alloc: Global, confs: &mut Vec<Conf>, entries: &[Entry]) -> Result<bool, OutOfMemory>
    ensures { IfOk result (λ taken. MatchBool taken
        (All IsFlat (texts_in entries.now) × (confs.new.items ≡ confs.old.items ++ map flat (texts_in entries.now)))
        (¬ (All IsFlat (texts_in entries.now)))) }
{
    for entry in entries {
        if !put_entry(alloc, confs, entry)? {
            return Ok(false);
        }
    }
    Ok(true)
}

/// The place of the first group with a Config whose text is refused, with one more group, where this is that of the
/// groups before it.
fn refused_with(
    alloc: Global,
    refused: Option<u64>,
    confs: &mut Vec<Conf>,
    group: &Group,
) -> Result<Option<u64>, OutOfMemory>
    ensures taken { IfOk result (λ now. (base : Base) (groups : List Group)
        → AreTaken base groups refused confs.old.items
        → AreTaken base (groups ++ group.now ∷ []) now confs.new.items) }
    ensures stays { IfOk result (λ now. now ≡ None → refused ≡ None) }
{
    match refused {
        Some(at) => Ok(Some(at)),
        None => {
            if put_group(alloc, confs, group.entries.as_slice())? {
                Ok(None)
            } else {
                Ok(Some(group.at))
            }
        }
    }
}

/// The place of the first misfit with one more group, where this is that of the groups before it and the judge has
/// judged these. The configurations are that of the base and those of all Configs, those of this group too.
fn misfit_with(confs: &[Conf], misfit: Option<u64>, judge: &mut Judge, group: &Group) -> Option<u64>
    ensures { (base : Base) (groups : List Group) → StandsFor flat base (start_of flat base)
        → AreTaken base (groups ++ group.now ∷ []) None confs.now
        → AreJudged (start_of flat base) groups misfit judge.old
        → AreJudged (start_of flat base) (groups ++ group.now ∷ []) result judge.new }
{
    match misfit {
        Some(at) => Some(at),
        None => {
            if judge.judge(confs, group) {
                None
            } else {
                Some(group.at)
            }
        }
    }
}

/// The same where no text of a Config was refused; else nothing is judged.
fn judged_with(
    refused: Option<u64>,
    confs: &[Conf],
    misfit: Option<u64>,
    judge: &mut Judge,
    group: &Group,
) -> Option<u64>
    ensures { (base : Base) (groups : List Group) → StandsFor flat base (start_of flat base)
        → AreTaken base (groups ++ group.now ∷ []) refused confs.now
        → AreJudged (start_of flat base) groups misfit judge.old → refused ≡ None
        → AreJudged (start_of flat base) (groups ++ group.now ∷ []) result judge.new }
{
    match refused {
        Some(_) => misfit,
        None => misfit_with(confs, misfit, judge, group),
    }
}

/// Adds entries, with the numbers behind those that are there, before all of which an entry with this number stands.
fn number_group(
    before: u64,
    numbered: &mut Many<Numbered>,
    entries: Many<Entry>,
) -> Result<(), OutOfMemory>
    requires { before ≤ most_counted }
    ensures { OnOk result (numbered.new ≡ with_group before numbered.old entries) }
{
    for entry in entries.into_vec() {
        let number = before + numbered.as_slice().len() as u64 + 1;
        numbered.push(Numbered { number, entry })?;
    }
    Ok(())
}

impl Numbering {
    /// That of no groups behind a base, or None where no run can begin with it. A base without a text is the empty one.
    pub(crate) fn on(alloc: Global, base: &Base) -> Result<Option<Numbering>, OutOfMemory>
        requires formed { base.now.text ≡ [] → base.now ≡ empty_base }
        ensures good { IfOk result (λ made. IfSome made (λ n. IsGoodBase base.entry.now
            × IsNumbered base.entry.now [] n)) }
        ensures bad { IfOk result (λ made. made ≡ None → ¬ (IsGoodBase base.entry.now)) }
    {
        let mut confs = Vec::new(alloc);
        if !put_base(alloc, &mut confs, base)? {
            return Ok(None);
        }
        Ok(Some(Numbering {
            before: base.number,
            entries: Many::new(alloc),
            confs,
            refused: None,
            misfit: None,
            judge: Judge::on(base),
        }))
    }

    /// Adds the next group of a journal, whose entries are moved: their configurations are taken where all texts before
    /// them are accepted, and they are judged where all groups before them fit.
    pub(crate) fn add(&mut self, alloc: Global, group: Group) -> Result<(), OutOfMemory>
        requires { self.old.before ≤ most_counted }
        ensures { OnOk result ((base : Base) (groups : List Group) → IsNumbered base groups self.old
            → IsNumbered base (groups ++ group ∷ []) self.new) }
    {
        self.refused = refused_with(alloc, self.refused, &mut self.confs, &group)?;
        self.misfit = judged_with(
            self.refused,
            self.confs.as_slice(),
            self.misfit,
            &mut self.judge,
            &group,
        );
        number_group(self.before, &mut self.entries, group.entries)?;
        Ok(())
    }
}
