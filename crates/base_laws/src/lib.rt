//! The laws of bases, as clauses. A *base* is the state that stands in place of a log's entries (`zbx_types::Base`): so a
//! journal can begin with what the entries of an older one have left.
//!
//! The central law: newer entries make behind the base of older ones what they make behind these, and they leave the same
//! base. `central_law` says it of a log under one configuration. `whole_law` says it of whole logs, with Configs among the
//! older and the newer entries, and with what the base tells by itself: where a run opens a base, nothing is known but the
//! base and its configuration, so the origins of open problems are told by their places in the base (`base_stage`).
//! `checkpoint_law` is the same of newer entries that are Values and Ticks.
//!
//! On the way stand these notions:
//!
//! - Starts are *alike* (`specs/Alike.antt`) where later entries make the same over them: the same problems are open, made in
//!   one order, whatever numbers tell it; of each history the same is to be kept; steps remember the same.
//! - A start is *sound* (`specs/Sound.antt`) where it is such as entries leave it, and *dated* (`specs/Dated.antt`) where its
//!   moments and numbers are those of entries up to it.
//! - A base *fits* a configuration (`specs/FitsBase.antt`): what a reader of a base has to test. The base of each log fits,
//!   and on each base that fits a log can stand.
//!
//! What is asked of configurations (`IsRegular`): no two triggers have the same names, actions have different names, and the
//! periods of calls can be counted.
//!
//! The functions do nothing: each stands for its clause. Crates above cite the lemmas of `proofs`.
#![tactic(auto)]

pub mod laws;
