//! Laws of open problems. The functions do nothing: each stands for its clause.

ghost use Rattle.trigger_state.specs.Laws.{SearchGrows, LandsAlone, OpenByTest};

/// The open problems that the search finds in records with some more are those that it found before, with what the records
/// behind them change one after another. So cells that absorb each record hold what the search finds.
pub fn search_grows()
    ensures { SearchGrows }
{}

/// A record that doesn't land at a trigger leaves its open problems alone.
pub fn lands_alone()
    ensures { LandsAlone }
{}

/// Where no problem of a trigger recovers before it opens, its open problems are its Problem records that no Recovery names
/// at all; so it is with any test that tells these records, as that of the names of its host and its own.
pub fn open_by_test()
    ensures { OpenByTest }
{}
