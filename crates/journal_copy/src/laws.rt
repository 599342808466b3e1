//! What a copy of a journal is good for, as a law.

ghost use Rattle.journal_copy.specs.Laws.{CopyGoesOn};

/// What newer entries make on the copy of a journal is what they make on the journal: the same records, so the same lines, and
/// the same state after them. So nothing is lost by a copy, however often one is made.
pub fn copy_goes_on()
    ensures { CopyGoesOn }
{}
