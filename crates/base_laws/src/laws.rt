//! The laws of bases: a base is a state that stands in place of entries. The functions do nothing: each stands for its
//! clause.

ghost use Rattle.base_laws.specs.Alike.{AlikeEntry, AlikeLogs};
ghost use Rattle.base_laws.specs.Dated.{FreshIsDated, WholeIsDated, BaseFits, CheckpointFits};
ghost use Rattle.base_laws.specs.FitsBase.{FitsIsSound, FitsIsStart};
ghost use Rattle.base_laws.specs.Grounds.{StartIsGround};
ghost use Rattle.base_laws.specs.Restoring.{RestoredHolds};
ghost use Rattle.base_laws.specs.Sound.{FreshIsSound, BehindIsSound, BaseIsAlike, BaseIsSound, FollowsBase, CentralLaw};
ghost use Rattle.base_laws.specs.WholeBases.{WholeOverNothing, WholeIsSound, ToldByBase, CheckpointLaw, WholeLaw, TextInForce, TextOverNothing};

/// Over cells that are alike, a later entry that isn't of an earlier moment makes the same records, and leaves cells that are
/// alike, whatever is told of the origins of earlier events as long as it gives one order of making. It has the condition
/// that the periods of calls can be counted.
pub fn alike_entry()
    ensures { AlikeEntry }
{}

/// Over starts that are alike, a log whose numbers rise and that suits them makes the same records, and leaves starts that
/// are alike.
pub fn alike_logs()
    ensures { AlikeLogs }
{}

/// A fresh start is sound, where no event is of another configuration.
pub fn fresh_is_sound()
    ensures { FreshIsSound }
{}

/// Behind a sound start, a log whose numbers rise leaves a sound start, where actions have different names.
pub fn behind_is_sound()
    ensures { BehindIsSound }
{}

/// The start that the base of a log is, where the same is in force, is alike to what the log leaves.
pub fn base_is_alike()
    ensures { BaseIsAlike }
{}

/// And it is sound again: so a base can be made of what follows a base.
pub fn base_is_sound()
    ensures { BaseIsSound }
{}

/// Entries whose numbers rise behind older ones, and that suit them, do so behind the base of these.
pub fn follows_base()
    ensures { FollowsBase }
{}

/// The central law, under one configuration: newer entries make behind the base of older ones what they make behind these,
/// and the base of all is the base that they leave behind that base. It has the conditions that actions have different names,
/// and that the periods of calls can be counted.
pub fn central_law()
    ensures { CentralLaw }
{}

/// A base that fits a configuration is a sound start by itself.
pub fn fits_is_sound()
    ensures { FitsIsSound }
{}

/// A log can stand on a base that fits, where no two triggers have the same names.
pub fn fits_is_start()
    ensures { FitsIsStart }
{}

/// What is restored from a base that fits holds the start that the base is by itself.
pub fn restored_holds()
    ensures { RestoredHolds }
{}

/// A log whose numbers rise meets over nothing what the laws of whole logs ask of a log and its start.
pub fn whole_over_nothing()
    ensures { WholeOverNothing }
{}

/// What a whole log leaves is sound. It has the conditions that no two triggers of a configuration have the same names, that
/// actions of one have different names, that the periods of its calls can be counted, and that numbers rise.
pub fn whole_is_sound()
    ensures { WholeIsSound }
{}

/// The start that the base of a whole log is by itself, which tells where its problems come from, is alike to what the log
/// leaves; it is sound, and a log can stand on it. It has the same conditions.
pub fn told_by_base()
    ensures { ToldByBase }
{}

/// The central law with what the base tells by itself: newer Values and Ticks make behind the base of a whole log what they
/// make behind the log, they leave the same base, and they suit it. It has the same conditions, and that no moment falls.
pub fn checkpoint_law()
    ensures { CheckpointLaw }
{}

/// The central law for whole logs: newer entries, whatever Configs are among them, make behind the base of older ones what
/// they make behind these, they leave the same base, and they fit and suit it. It has the same conditions.
pub fn whole_law()
    ensures { WholeLaw }
{}

/// The document that a base has is that of the configuration in force, where the one told before the log was.
pub fn text_in_force()
    ensures { TextInForce }
{}

/// So it is where a log that fits begins over nothing.
pub fn text_over_nothing()
    ensures { TextOverNothing }
{}

/// A fresh start is dated, where there was no Tick.
pub fn fresh_is_dated()
    ensures { FreshIsDated }
{}

/// What a whole log leaves is dated. Beside the conditions of the law of whole logs it has those that no moment falls and
/// that the severity of each trigger is one that there is.
pub fn whole_is_dated()
    ensures { WholeIsDated }
{}

/// The base of a whole log fits the configuration in force there, where its number and its bytes of lines can be counted. It
/// has the same conditions.
pub fn base_fits()
    ensures { BaseFits }
{}

/// A base that fits is dated by itself, and each whole log whose numbers rise behind it fits it: so bases can be made of what
/// follows a base.
pub fn checkpoint_fits()
    ensures { CheckpointFits }
{}

/// On what stands before the entries of a journal that begins with a base, empty or fitting the configuration of its document,
/// a whole log can stand.
pub fn start_is_ground()
    ensures { StartIsGround }
{}
