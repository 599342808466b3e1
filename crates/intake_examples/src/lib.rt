//! Worked examples of the intake: what `intake_journal` keeps on its disk and reads of it again, and what `intake_front`
//! takes, keeps and answers. A crate with tests is proved twice, so these stand here. The cases of a test are lines of one
//! text, since a proof pays for each assertion and for each value that lives over a way out.
#![tactic(auto)]

#[cfg(test)]
mod front_misfits;
#[cfg(test)]
mod front_runs;
#[cfg(test)]
mod front_taking;
#[cfg(test)]
mod journal_appends;
#[cfg(test)]
mod journal_bases;
#[cfg(test)]
mod journal_files;
#[cfg(test)]
mod rows;
