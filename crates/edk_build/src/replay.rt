//! A replay: the edits and builds of a script, one after the other.
ghost use Rattle.std.specs.Prelude.{◌≡◌, ◌⊎◌, ◌≤◌, ◌<◌, [], length, None, Some, true, ℕ, List, IfOk, IfErr, OnOk};
ghost use Rattle.build_base.specs.Outside.{HasFailed};
ghost use Rattle.build_base.specs.FaultText.{fault_of, fault_text};
ghost use Rattle.step_engine.specs.Entries.{AreSound};
ghost use Rattle.job_fields.specs.Readings.{is_job};
ghost use Rattle.edk_build.specs.Building.{means};
ghost use Rattle.edk_build.specs.History.{after_edit, WasCarriedOut, HasStoppedAtLine, IsTold, Follows, IsReplayed, IsUntouched};
ghost use Rattle.edk_build.specs.Script.{HasJob, HaveJobs, script_line, script_of};
ghost use Rattle.edk_build.specs.ReplayReads.{LineReads, LinesRead, ScriptReads, ReplayReads, edited_paths};
ghost use Rattle.edk_build.specs.Statuses.{OnEnd, OnWriteFault, OnUsage, IsUsageTold, Causes};
ghost use Rattle.job_fields.specs.Fields.{job_fields};
ghost use Rattle.edk_build.specs.declared.script.ScriptCommand.TheVariants as order;
ghost use Rattle.step_pack.specs.declared.key.Key.{Key};

use crate::build::build;
use crate::host::Host;
use crate::made::write_text;
use crate::replay_state::{ReplayState, label_of};
use crate::request::Request;
use crate::script::{ScriptCommand, ScriptLine, read_script};
use crate::status::Status;
use crate::usage::tell_usage;
use build_base::fault::fault_text;
use build_base::fault_codes::{FILE_TOO_LONG, FROM_ABSENT, SCRIPT_ABSENT};
use build_base::{
    Book, FILE_LIMIT, Fault, Gate, Got, Path, Place, Same, Sink, Target, Text, Tree, TreeFailed,
    WantOfMemory,
};
use job_fields::Job;
use job_fields::fields::job_fields;
use shared_value::Shared;
use std::alloc::Global;
use std::thread::Threads;
use step_pack::Key;

fn message_of(
    alloc: Global,
    code: u16,
    path: &Path,
    line: u64,
    detail: &Path,
) -> Result<Text, WantOfMemory>
    ensures { IfOk result (λ message. message
        ≡ fault_text (fault_of code (record { path = path.now; line = line }) detail.now)) }
{
    let place = Place {
        path: path.copy(alloc)?,
        line,
    };
    let detail = Text::of(alloc, detail.bytes())?;
    let fault = Fault {
        code,
        place,
        detail,
    };
    fault_text(alloc, &fault)
}

// Ends a run with a fault, whose text goes to standard error.
fn tell_fault<S: Sink>(
    alloc: Global,
    code: u16,
    path: &Path,
    line: u64,
    detail: &Path,
    sink: &mut S,
) -> Status
    ensures told { IsTold (fault_of code (record { path = path.now; line = line }) detail.now)
        result (S.written sink.old) (S.written sink.new) }
    ensures count { OnEnd result (S.faults sink.new ≡ S.faults sink.old) }
    ensures write_fault { OnWriteFault result (HasFailed (S.faults sink.old) (S.faults sink.new)) }
{
    let Ok(message) = message_of(alloc, code, path, line, detail) else {
        return Status::WantOfMemory;
    };
    match write_text(sink, &Target::Err, &message) {
        Ok(()) => Status::FileFault,
        Err(_) => Status::WriteFault,
    }
}

// The bytes become the file of a path.
fn put_bytes(
    alloc: Global,
    path: &Path,
    bytes: Text,
    stand: ReplayState,
) -> Result<ReplayState, WantOfMemory>
    ensures { IfOk result (λ next. next ≡ after_edit stand path.now (Some bytes)) }
{
    let bytes = Shared::new(alloc, bytes)?;
    let path = path.copy(alloc)?;
    let mut stand = stand;
    stand.edits.put(path, bytes)?;
    Ok(stand)
}

// From now on there is no file at a path.
fn drop_file(alloc: Global, path: &Path, stand: ReplayState) -> Result<ReplayState, WantOfMemory>
    ensures { IfOk result (λ next. next ≡ after_edit stand path.now None) }
{
    let path = path.copy(alloc)?;
    let mut stand = stand;
    stand.edits.drop_file(path)?;
    Ok(stand)
}

// The bytes that a file of the tree has become the file of a path.
fn put<T: Tree, S: Sink>(
    alloc: Global,
    script: &Path,
    number: u64,
    path: &Path,
    from: &Path,
    stand: ReplayState,
    tree: &mut T,
    sink: &mut S,
) -> Result<ReplayState, Status>
    ensures done { (a : List Key) → IfOk result
        (λ next. WasCarriedOut (T.held tree.old) (order.Put path.now from.now) stand a next a
        (S.written sink.old) (S.written sink.new)) }
    ensures cache { IfOk result (λ next. next.cache ≡ stand.cache) }
    ensures stopped { (a : List Key) → IfErr result (λ status.
        HasStoppedAtLine (T.held tree.old) script.now (script_line number (order.Put path.now from.now))
        status stand a a (S.written sink.old) (S.written sink.new)) }
    ensures read { LineReads (edited_paths stand) (order.Put path.now from.now) (T.reads tree.old)
        (T.reads tree.new) }
    ensures held { T.held tree.new ≡ T.held tree.old }
    ensures counts { OnOk result
        (Causes Status.Done (T.faults tree.old) (T.faults tree.new) (S.faults sink.old)
        (S.faults sink.new)) }
    ensures causes { IfErr result
        (λ status. Causes status (T.faults tree.old) (T.faults tree.new) (S.faults sink.old)
        (S.faults sink.new)) }
{
    match tree.read(from, FILE_LIMIT) {
        Ok(Got::File(bytes)) => Ok(put_bytes(alloc, path, bytes, stand)?),
        Ok(Got::Absent) => Err(tell_fault(alloc, FROM_ABSENT, script, number, from, sink)),
        Ok(Got::TooLong) => Err(tell_fault(alloc, FILE_TOO_LONG, from, 0, from, sink)),
        Err(TreeFailed::Failed) => Err(Status::ReadFault),
        Err(TreeFailed::WantOfMemory) => Err(Status::WantOfMemory),
    }
}

// Builds over the edits, from the cache that the last build left.
fn build_next<H: Threads + Sync, T: Tree, S: Sink, G: Gate>(
    host: &Host<'_, H, G>,
    job: &Job,
    stand: ReplayState,
    tree: &mut T,
    sink: &mut S,
    book: &mut Book<Key>,
) -> Result<ReplayState, Status>
    requires job { is_job (job_fields job.now) ≡ true }
    requires sound { AreSound means stand.cache }
    requires few { stand.builds < 1000 }
    ensures done { IfOk result
        (λ next. WasCarriedOut (T.held tree.old) (order.Build job.now) stand book.old next book.new
        (S.written sink.old) (S.written sink.new)) }
    ensures stopped { (at : List ℕ) (number : ℕ) → IfErr result (λ status.
        HasStoppedAtLine (T.held tree.old) at (script_line number (order.Build job.now)) status stand
        book.old book.new (S.written sink.old) (S.written sink.new)) }
    ensures read { LineReads (edited_paths stand) (order.Build job.now) (T.reads tree.old)
        (T.reads tree.new) }
    ensures held { T.held tree.new ≡ T.held tree.old }
    ensures counts { OnOk result
        (Causes Status.Done (T.faults tree.old) (T.faults tree.new) (S.faults sink.old)
        (S.faults sink.new)) }
    ensures causes { IfErr result
        (λ status. Causes status (T.faults tree.old) (T.faults tree.new) (S.faults sink.old)
        (S.faults sink.new)) }
{
    let ReplayState {
        edits,
        cache,
        builds,
    } = stand;
    let number = builds + 1;
    let label = label_of(host.alloc, number)?;
    let fields = job_fields(host.alloc, job)?;
    let asked = Request {
        fields: &fields,
        edits: &edits,
        workers: &job.workers,
    };
    let built = build(host, &asked, &label, cache, tree, sink, book)?;
    Ok(ReplayState {
        edits,
        cache: built.cache,
        builds: number,
    })
}

// Carries out the order of a line.
fn carry_out<H: Threads + Sync, T: Tree, S: Sink, G: Gate>(
    host: &Host<'_, H, G>,
    script: &Path,
    line: &ScriptLine,
    stand: ReplayState,
    tree: &mut T,
    sink: &mut S,
    book: &mut Book<Key>,
) -> Result<ReplayState, Status>
    requires job { HasJob line.now.order }
    requires sound { AreSound means stand.cache }
    requires few { stand.builds < 1000 }
    ensures done { IfOk result
        (λ next. WasCarriedOut (T.held tree.old) line.now.order stand book.old next book.new
        (S.written sink.old) (S.written sink.new)) }
    ensures sound { IfOk result (λ next. AreSound means next.cache) }
    ensures stopped { IfErr result (λ status.
        HasStoppedAtLine (T.held tree.old) script.now line.now status stand book.old book.new
        (S.written sink.old) (S.written sink.new)) }
    ensures read { LineReads (edited_paths stand) line.now.order (T.reads tree.old) (T.reads tree.new) }
    ensures held { T.held tree.new ≡ T.held tree.old }
    ensures counts { OnOk result
        (Causes Status.Done (T.faults tree.old) (T.faults tree.new) (S.faults sink.old)
        (S.faults sink.new)) }
    ensures causes { IfErr result
        (λ status. Causes status (T.faults tree.old) (T.faults tree.new) (S.faults sink.old)
        (S.faults sink.new)) }
{
    let alloc = host.alloc;
    match &line.order {
        ScriptCommand::Put { path, from } => {
            put(alloc, script, line.number, path, from, stand, tree, sink)
        }
        ScriptCommand::Drop(path) => Ok(drop_file(alloc, path, stand)?),
        ScriptCommand::Build(job) => build_next(host, job, stand, tree, sink, book),
    }
}

// Carries out the lines of a script, up to one where the replay stops.
fn replay_lines<H: Threads + Sync, T: Tree, S: Sink, G: Gate>(
    host: &Host<'_, H, G>,
    script: &Path,
    lines: &[ScriptLine],
    tree: &mut T,
    sink: &mut S,
    book: &mut Book<Key>,
) -> Status
    requires jobs { HaveJobs lines.now }
    requires few { length lines.now ≤ 1000 }
    ensures follows { Follows (T.held tree.old) script.now (Some lines.now) result book.old book.new
        (S.written sink.old) (S.written sink.new) }
    ensures no_usage { OnUsage result ⊥ }
    ensures read { LinesRead [] lines.now (T.reads tree.old) (T.reads tree.new) }
    ensures held { T.held tree.new ≡ T.held tree.old }
    ensures causes { Causes result (T.faults tree.old) (T.faults tree.new) (S.faults sink.old)
        (S.faults sink.new) }
{
    let mut stand = ReplayState::new(host.alloc);
    let mut left = lines;
    while let [line, rest @ ..] = left {
        match carry_out(host, script, line, stand, tree, sink, book) {
            Ok(next) => {
                stand = next;
                left = rest;
            }
            Err(status) => return status,
        }
    }
    Status::Done
}

// Replays a script that was read.
fn replay_text<H: Threads + Sync, T: Tree, S: Sink, G: Gate>(
    host: &Host<'_, H, G>,
    script: &Path,
    bytes: &[u8],
    tree: &mut T,
    sink: &mut S,
    book: &mut Book<Key>,
) -> Status
    ensures follows { IsUntouched result book.old book.new (S.written sink.old) (S.written sink.new)
        ⊎ Follows (T.held tree.old) script.now (script_of bytes.now) result book.old book.new
        (S.written sink.old) (S.written sink.new) }
    ensures usage_told { OnUsage result
        (IsUsageTold (S.faults sink.old) (S.faults sink.new) (S.written sink.old)
        (S.written sink.new)) }
    ensures read { ScriptReads (script_of bytes.now) (T.reads tree.old) (T.reads tree.new) }
    ensures held { T.held tree.new ≡ T.held tree.old }
    ensures causes { Causes result (T.faults tree.old) (T.faults tree.new) (S.faults sink.old)
        (S.faults sink.new) }
{
    match read_script(host.alloc, bytes) {
        Ok(Some(lines)) => replay_lines(host, script, lines.items(), tree, sink, book),
        Ok(None) => {
            tell_usage(sink);
            Status::Usage
        }
        Err(_) => Status::WantOfMemory,
    }
}

/// Replays a script of the tree: its edits stand above the tree's files, and its builds pass the
/// cache on, from none. All lines are checked before the first is carried out.
pub fn replay<H: Threads + Sync, T: Tree, S: Sink, G: Gate>(
    host: &Host<'_, H, G>,
    script: &Path,
    tree: &mut T,
    sink: &mut S,
    book: &mut Book<Key>,
) -> Status
    ensures replayed { IsReplayed (T.held tree.old) script.now result book.old book.new
        (S.written sink.old) (S.written sink.new) }
    ensures usage_told { OnUsage result
        (IsUsageTold (S.faults sink.old) (S.faults sink.new) (S.written sink.old)
        (S.written sink.new)) }
    ensures read { ReplayReads (T.held tree.old) script.now (T.reads tree.old) (T.reads tree.new) }
    ensures held { T.held tree.new ≡ T.held tree.old }
    ensures causes { Causes result (T.faults tree.old) (T.faults tree.new) (S.faults sink.old)
        (S.faults sink.new) }
{
    match tree.read(script, FILE_LIMIT) {
        Ok(Got::File(bytes)) => replay_text(host, script, bytes.bytes(), tree, sink, book),
        Ok(Got::Absent) => tell_fault(host.alloc, SCRIPT_ABSENT, script, 0, script, sink),
        Ok(Got::TooLong) => tell_fault(host.alloc, FILE_TOO_LONG, script, 0, script, sink),
        Err(TreeFailed::Failed) => Status::ReadFault,
        Err(TreeFailed::WantOfMemory) => Status::WantOfMemory,
    }
}
