//! Counts of records.

ghost use Rattle.std.specs.Prelude.{◌≡◌, count_by, [], length};
ghost use Rattle.event_text.specs.Lines.{lines_of};
ghost use Rattle.book_opening.specs.Tally.{is_counted, tally_of, tally_with};

use zbx_types::Rec;

/// What records count. A count above 2^64 - 1 stands as 2^64 - 1.
#[derive(Clone, Copy, Debug, PartialEq, Eq)]
pub struct Tally {
    /// Problem records.
    pub problems: u64,
    /// Recovery records.
    pub recoveries: u64,
    /// Message records.
    pub messages: u64,
    /// The bytes of the lines of all records, and those before them.
    pub bytes: u64,
}

/// A kind of record that is counted.
#[derive(Clone, Copy, Debug, PartialEq, Eq)]
pub(crate) enum Counted {
    Problems,
    Recoveries,
    Messages,
}

#[tactic(auto, unfolding(crate::specs::Tally::is_counted))]
fn is_counted(kind: Counted, rec: &Rec) -> bool
    ensures { result ≡ is_counted kind rec.now }
{
    match rec {
        Rec::Problem { .. } => kind == Counted::Problems,
        Rec::Recovery { .. } => kind == Counted::Recoveries,
        Rec::Message { .. } => kind == Counted::Messages,
        Rec::Failure { .. } | Rec::Step { .. } => false,
    }
}

fn count(kind: Counted, records: &[Rec]) -> u64
    ensures { result ≡ count_by (is_counted kind) records.now }
{
    let mut count = 0;
    for rec in records {
        if is_counted(kind, rec) {
            count += 1;
        }
    }
    count
}

impl Tally {
    /// No records yet, whose lines will stand behind so many bytes.
    #[tactic(auto, using(crate::proofs::Counting::tally_none))]
    pub fn behind(bytes: u64) -> Tally
        ensures { result ≡ tally_of bytes [] }
    {
        Tally {
            problems: 0,
            recoveries: 0,
            messages: 0,
            bytes,
        }
    }

    /// Counts more records, whose lines have this many bytes.
    #[tactic(auto, unfolding(crate::specs::Tally::tally_with))]
    pub fn add(&mut self, records: &[Rec], bytes: usize)
        requires { bytes ≡ length (lines_of records.now) }
        ensures { self.new ≡ tally_with self.old records.now }
    {
        *self = Tally {
            problems: self
                .problems
                .saturating_add(count(Counted::Problems, records)),
            recoveries: self
                .recoveries
                .saturating_add(count(Counted::Recoveries, records)),
            messages: self
                .messages
                .saturating_add(count(Counted::Messages, records)),
            bytes: self.bytes.saturating_add(bytes as u64),
        };
    }
}
