//! Whether rising rows have an id in common.

ghost use Rattle.std.specs.Prelude.{◌≡◌, true};
ghost use Rattle.footprint.specs.Rows.{meet, rises, from_id, begins, walk_meets};

/// What is left of rising ids from one on.
fn from_id(id: u32, ids: &[u32]) -> &[u32]
    ensures { result.now ≡ from_id id ids.now }
{
    for (place, other) in ids.iter().enumerate() {
        if *other >= id {
            return &ids[place..];
        }
    }
    &[]
}

/// Whether a list begins with an id.
fn begins(id: u32, ids: &[u32]) -> bool
    ensures { result ≡ begins id ids.now }
{
    match ids.first() {
        None => false,
        Some(first) => *first == id,
    }
}

/// Walks two rows side by side.
fn walk_meets(a: &[u32], b: &[u32]) -> bool
    ensures { result ≡ walk_meets a.now b.now }
{
    let mut rest = b;
    for id in a {
        rest = from_id(*id, rest);
        if begins(*id, rest) {
            return true;
        }
    }
    false
}

/// Whether two rising rows have an id in common, in one walk over both.
pub(crate) fn meet(a: &[u32], b: &[u32]) -> bool
    requires first { rises a.now ≡ true }
    requires second { rises b.now ≡ true }
    ensures { result ≡ meet a.now b.now }
{
    walk_meets(a, b)
}
