//! From words to a copy of a journal over two files.

ghost use Rattle.zabbix_server.specs.Program.{IsCopyOf, IsCopyStatus};

use journal_copy::run_checkpoint;
use outside::{Disk, Sink};
use server_words::{Plan, Status};
use std::alloc::Global;
use wire_mio::{DiskFile, FileDisk, StdSink};
use zbx_types::Text;

/// The disk at a path that a plan names. One that it doesn't name is the empty one, at which no file is.
fn disk_at(rt: &HostRuntime, alloc: Global, path: Option<&Text>) -> FileDisk<DiskFile> {
    let nowhere = Text::new(alloc);
    FileDisk::at(rt, path.unwrap_or(&nowhere))
}

/// Copies the journal that a plan names into the file that it names, and answers how that ended. A file that can't be opened,
/// or that another program has, is a disk at which every call fails; so is the second one where both are the same.
pub(crate) fn run(rt: &HostRuntime, alloc: Global, words: &[Text], plan: &Plan) -> Status
    ensures { IsCopyStatus words.now result }
{
    let from = disk_at(rt, alloc, plan.journal.as_ref());
    let into = disk_at(rt, alloc, plan.into.as_ref());
    let printer = StdSink::new(rt.stdout());
    status_of(alloc, words, from, into, printer)
}

/// How a call for a copy over these objects ended.
pub(crate) fn status_of<D: Disk + Drop, E: Disk + Drop, P: Sink + Drop>(
    alloc: Global,
    words: &[Text],
    from: D,
    into: E,
    printer: P,
) -> Status
    ensures { IsCopyOf words.now
        (record { file = (D.tells from).bytes; faults = (D.tells from).faults })
        (record { file = (E.tells into).bytes; faults = (E.tells into).faults })
        (P.tells printer) result }
{
    let mut printer = printer;
    run_checkpoint(alloc, words, from, into, &mut printer).status
}
