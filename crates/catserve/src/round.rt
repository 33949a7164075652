//! The end of a round: its loads are published, and its questions are answered.
ghost use Rattle.std.specs.Prelude.{◌≡◌, ◌≤◌, IfOk, IfErr, OnOk, length, vec_len};
ghost use Rattle.script_text.specs.ScriptFields.{most_workers};
ghost use Rattle.catserve.specs.Running.{AreReady, FailsToFinish, Finishes, HaveBook, kind_of};

use crate::asking::{any_asked, write_all};
use crate::output::write_version;
use desks::{Desk, OpenGate, ServeFault, serve};
use live_versions::Publisher;
use script_text::ScriptKind;
use std::alloc::Global;
use std::sync::Wait;
use std::thread::Threads;

/// The fault of a service as an error of a script.
fn kind_of(fault: ServeFault) -> ScriptKind
    ensures { result ≡ kind_of fault }
{
    match fault {
        ServeFault::Memory => ScriptKind::Memory,
        ServeFault::Ahead | ServeFault::Closed => ScriptKind::Closed,
        ServeFault::Join => ScriptKind::Join,
    }
}

/// Publishes the loads that a round has made, and answers what its workers are asked; writes the lines of both. If no
/// worker is asked, no reader enters the store.
pub(crate) fn finish<R: Threads + Wait + Sync>(
    rt: &R,
    alloc: Global,
    publisher: &mut Publisher,
    desks: &mut Vec<Desk>,
    output: &mut Vec<u8>,
) -> Result<(), ScriptKind>
    requires book { HaveBook publisher.old.seen desks.old.items }
    requires count { (1 ≤ vec_len desks.old) × (vec_len desks.old ≤ most_workers) }
    ensures ok { IfOk result (λ _. Finishes (length desks.old.items) publisher.old desks.old.items output.old.items
        publisher.new output.new.items) }
    ensures ready { OnOk result (AreReady publisher.new.seen desks.new.items) }
    ensures count { OnOk result (vec_len desks.new ≡ vec_len desks.old) }
    ensures fault { IfErr result (FailsToFinish desks.old.items publisher.new.seen desks.new.items) }
{
    let Ok(version) = publisher.publish(rt) else {
        return Err(ScriptKind::Memory);
    };
    write_version(alloc, output, version)?;
    if !any_asked(desks.as_slice()) {
        return Ok(());
    }
    let _served = match serve(rt, alloc, publisher, desks, Vec::new(alloc), &OpenGate) {
        Ok(served) => served,
        Err(fault) => return Err(kind_of(fault)),
    };
    write_all(alloc, 0, desks.as_mut_slice(), output)?;
    Ok(())
}
