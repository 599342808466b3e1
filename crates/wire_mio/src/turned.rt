//! Newcomers that were turned away.

ghost use Rattle.std.specs.List.{All};
ghost use Rattle.std.specs.Prelude.{◌≡◌, ◌∷◌, []};
ghost use Rattle.wire_mio.specs.Tables.{IsTakenUp};

use crate::connections::Connections;
use std::marker::Model;
use std::snapshot::Snapshot;

/// The connections that were there as newcomers were turned away, the latest first: as many as may be, each open, and each with a
/// byte or its opening not long ago. Only contracts read them, and they take no memory.
#[derive(Drop)]
pub(crate) struct TurnedAway {
    latest: Option<(Snapshot<TurnedAway>, Snapshot<Connections>)>,
}

impl Model for TurnedAway {
    ghost use Rattle.std.specs.Prelude.{List, length};
    ghost use Rattle.std.specs.List.{All};
    ghost use Rattle.wire_mio.specs.Tables.{Table, IsTakenUp};
    ghost use Rattle.wire_mio.specs.Turned.{turned_away};

    ghost Value = { List Table };

    ghost view = { λ t. turned_away t.latest };

    ghost invariant = { λ t. All IsTakenUp (turned_away t.latest) };

    ghost size = { λ tables. length tables };

    ghost use Rattle.std.proofs.Common.{arith};

    ghost size_decreases = { λ a h. Prim.grind arith };
}

impl TurnedAway {
    /// None was turned away.
    pub(crate) fn none() -> TurnedAway
        ensures { result ≡ [] }
    {
        TurnedAway { latest: None }
    }

    /// One more was turned away, where these were there.
    pub(crate) fn add(&mut self, there: &Connections)
        requires { IsTakenUp there.now }
        ensures { self.new ≡ there.now ∷ self.old }
    {
        self.were_taken_up();
        let before = Snapshot::of(self);
        let there = Snapshot::of(there);
        *self = TurnedAway {
            latest: Some((before, there)),
        };
    }

    /// Each time all places were taken up.
    pub(crate) fn were_taken_up(&self)
        ensures { All IsTakenUp self.now }
    {
        let _ = &self.latest;
    }
}
