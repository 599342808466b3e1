//! The name of what a run begins with. Contracts alone know it: a program computes nothing from it.

use std::marker::Brand;

/// With what a run begins. Each call of a program picks it, before the ring is made.
pub trait StartName {
    ghost use Rattle.std.specs.Prelude.{◌≡◌, ℕ, List};
    ghost use Rattle.entry_laws.specs.InForce.{behind_all};
    ghost use Rattle.entry_step.specs.Log.{log_of};
    ghost use Rattle.entry_step.specs.Start.{Start};
    ghost use Rattle.zbx_types.specs.declared.base.Base.{Base};
    ghost use Rattle.zbx_types.specs.declared.conf.Conf.{Conf};
    ghost use Rattle.zbx_types.specs.declared.entries.Numbered.{Numbered};
    ghost use Rattle.outside.specs.Tells.{SinkTells};
    ghost use Rattle.base_laws.specs.Grounds.{start_of};
    ghost use Rattle.value_cache.specs.Tokens.{CacheId};

    /// The configuration that a text stands for.
    ghost flat: { List ℕ → Conf };

    /// The base with which the journal begins: it stands in place of the entries up to its number. Where there are none it
    /// is empty.
    ghost base: { Base };

    /// The entries that the journal kept behind its base, in the order of their numbers. They don't go through the ring.
    ghost kept: { List Numbered };

    /// What they leave for the entries that follow, with what is in force then.
    ghost start: { Start };

    ghost first: { start ≡ behind_all flat (start_of flat base) (log_of kept) };

    /// What its outbox told at the opening.
    ghost outbox: { SinkTells };

    /// The cache in which the values of all its cells stand: the book's, and those of orders.
    ghost cache: { CacheId };
}

impl StartName for Brand {
    ghost use Rattle.std.specs.Prelude.{[], refl};
    ghost use Rattle.entry_laws.specs.InForce.{behind_all};
    ghost use Rattle.entry_step.specs.Start.{no_conf};
    ghost use Rattle.zbx_types.specs.Bases.{empty_base};
    ghost use Rattle.base_laws.specs.Grounds.{start_of};
    ghost use Rattle.book_opening.specs.Outgoing.{no_outbox};
    ghost use Rattle.book_opening.specs.Opening.{no_cache};

    ghost flat = { λ _. no_conf };

    ghost base = { empty_base };

    ghost kept = { [] };

    ghost start = { behind_all (λ _. no_conf) (start_of (λ _. no_conf) empty_base) [] };

    ghost first = { refl };

    ghost outbox = { no_outbox };

    ghost cache = { no_cache };
}
