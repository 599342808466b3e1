//! Whether a run can begin with a base.

ghost use Rattle.std.specs.Prelude.{◌≡◌, ◌<◌, ◌++◌, [], map, length, true, false, None, MatchBool, IfSome, IfOk};
ghost use Rattle.zbx_types.specs.Bases.{empty_base};
ghost use Rattle.entry_laws.specs.InForce.{texts_on};
ghost use Rattle.base_laws.specs.FitsBase.{FitsBase};
ghost use Rattle.journal_opening.specs.Replayed.{flat, IsFlat, IsGoodBase};

use base_state::fits;
use config_templates::{FlatError, flat};
use std::alloc::Global;
use zbx_types::{Base, Conf, OutOfMemory};

/// The configuration of a base that has a text, or None where its text isn't accepted, or it doesn't fit that.
#[tactic(auto, using(crate::proofs::Bases::not_flat, crate::proofs::Bases::not_fitting))]
fn base_conf(alloc: Global, base: &Base) -> Result<Option<Conf>, OutOfMemory>
    ensures good { IfOk result (λ c. IfSome c (λ conf. IsFlat base.entry.now.text
        × (conf ≡ flat base.entry.now.text) × FitsBase conf base.entry.now)) }
    ensures bad { IfOk result (λ c. c ≡ None
        → ¬ (IsFlat base.entry.now.text × FitsBase (flat base.entry.now.text) base.entry.now)) }
{
    match flat(alloc, base.text.as_bytes()) {
        Ok(conf) => match fits(alloc, &conf, base) {
            Ok(true) => Ok(Some(conf)),
            Ok(false) => Ok(None),
            Err(OutOfMemory) => Err(OutOfMemory),
        },
        Err(FlatError::Refused { .. }) => Ok(None),
        Err(FlatError::OutOfMemory) => Err(OutOfMemory),
    }
}

/// Whether a base has no text.
fn is_nothing(base: &Base) -> bool
    ensures none { result ≡ true → length base.entry.now.text ≡ 0 }
    ensures some { result ≡ false → 0 < length base.entry.now.text }
{
    base.text.as_bytes().is_empty()
}

/// Adds the configuration of a base, where it has one, and answers true, or false where no run can begin with it. A base
/// without a text is the empty one.
#[tactic(auto, using(crate::proofs::Bases::empty_good, crate::proofs::Bases::own_good, crate::proofs::Bases::bad_base))]
pub(crate) fn put_base(
    alloc: Global,
    confs: &mut Vec<Conf>,
    base: &Base,
) -> Result<bool, OutOfMemory>
    requires formed { base.now.text ≡ [] → base.now ≡ empty_base }
    ensures { IfOk result (λ good. MatchBool good (IsGoodBase base.entry.now
        × (confs.new.items ≡ confs.old.items ++ map flat (texts_on base.entry.now.text [])))
        (¬ (IsGoodBase base.entry.now))) }
{
    if is_nothing(base) {
        return Ok(true);
    }
    match base_conf(alloc, base) {
        Ok(Some(conf)) => {
            confs.push(conf)?;
            Ok(true)
        }
        Ok(None) => Ok(false),
        Err(OutOfMemory) => Err(OutOfMemory),
    }
}
