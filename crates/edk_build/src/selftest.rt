//! A selftest: three builds of a workspace in memory, the third after an edit.
ghost use Rattle.std.specs.Prelude.{◌≡◌, ◌∷◌, [], ℕ, Some, IfOk, IfErr, OnOk};
ghost use Rattle.build_base.specs.Outside.{Files, HasFailed};
ghost use Rattle.build_base.specs.Path.{path_field};
ghost use Rattle.step_engine.specs.Entries.{AreSound};
ghost use Rattle.job_fields.specs.Fields.{job_fields};
ghost use Rattle.selftest_tree.specs.Tree.{workspace, edited_workspace};
ghost use Rattle.edk_build.specs.Building.{means};
ghost use Rattle.edk_build.specs.Selftest.{selftest_job, label_named, second_turn, third_turn, TurnEnded, TurnStopped, WereBuilt, IsSelftest, IsSelftestStatus, IsSelftestComplete};
ghost use Rattle.edk_build.specs.Statuses.{OnUsage, OnReadFault, Causes};

use crate::build::build;
use crate::host::Host;
use crate::label::Label;
use crate::request::Request;
use crate::status::Status;
use build_base::path::path_field;
use build_base::{Book, Gate, Rows, Sink, Text, Tree, WantOfMemory};
use job_fields::fields::job_fields;
use job_fields::job::{Images, Names, Settings};
use job_fields::{Job, Workers, job};
use selftest_tree::{edited_text, module_path, selftest_files};
use std::alloc::Global;
use std::thread::Threads;
use step_engine::{Cache, Edits};
use step_pack::{Key, Out};
use sure_objects::SureTree;

#[tactic(auto, using(crate::proofs::LabelLemmas::platform_is_path))]
fn files_wanted(alloc: Global) -> Result<job::Files, WantOfMemory>
    ensures { IfOk result (λ files. files ≡ selftest_job.files) }
{
    match path_field(alloc, b"T.dsc")? {
        Some(platform) => Ok(job::Files {
            platform,
            flash: None,
            report: None,
        }),
        None => unreachable!(),
    }
}

fn selftest_job(alloc: Global) -> Result<Job, WantOfMemory>
    ensures { IfOk result (λ job. job ≡ selftest_job) }
{
    let files = files_wanted(alloc)?;
    Ok(Job {
        files,
        names: Names {
            target: None,
            tag: None,
            sku: None,
        },
        arches: Rows::new(alloc),
        settings: Settings {
            defines: Rows::new(alloc),
            pcds: Rows::new(alloc),
        },
        images: Images {
            devices: Rows::new(alloc),
            volumes: Rows::new(alloc),
        },
        workers: Workers::one(),
    })
}

fn selftest_fields(alloc: Global) -> Result<Rows<Text>, WantOfMemory>
    ensures { IfOk result (λ fields. fields ≡ job_fields selftest_job) }
{
    let job = selftest_job(alloc)?;
    job_fields(alloc, &job)
}

fn label_named(alloc: Global, name: &[u8]) -> Result<Label, WantOfMemory>
    requires { path_field name.now ≡ Some name.now }
    ensures { IfOk result (λ label. label ≡ label_named name.now) }
{
    match path_field(alloc, name)? {
        Some(folder) => Ok(Label {
            folder: Some(folder),
            tells_status: false,
        }),
        None => unreachable!(),
    }
}

// Builds the workspace as it stands, and gives the cache that the build leaves.
fn build_named<H: Threads + Sync, S: Sink, G: Gate>(
    host: &Host<'_, H, G>,
    name: &[u8],
    fields: &Rows<Text>,
    cache: Cache<Key, Out>,
    tree: &mut SureTree,
    sink: &mut S,
    book: &mut Book<Key>,
) -> Result<Cache<Key, Out>, Status>
    requires name { path_field name.now ≡ Some name.now }
    requires fields { fields.now ≡ job_fields selftest_job }
    ensures done { (files : Files) → ⟦<SureTree as Tree>⟧.held tree.old ≡ Some files
        → AreSound means cache → IfOk result (λ next.
        TurnEnded (record { name = name.now; files = files }) cache book.old next book.new
        (S.written sink.old) (S.written sink.new)) }
    ensures stopped { (files : Files) → ⟦<SureTree as Tree>⟧.held tree.old ≡ Some files
        → AreSound means cache → IfErr result (λ status.
        TurnStopped (record { name = name.now; files = files }) status cache book.old book.new
        (S.written sink.old) (S.written sink.new)) }
    ensures held { ⟦<SureTree as Tree>⟧.held tree.new ≡ ⟦<SureTree as Tree>⟧.held tree.old }
    ensures counts { OnOk result (Causes Status.Done 0 0 (S.faults sink.old) (S.faults sink.new)) }
    ensures causes { IfErr result
        (λ status. Causes status 0 0 (S.faults sink.old) (S.faults sink.new)) }
{
    let Ok(label) = label_named(host.alloc, name) else {
        return Err(Status::WantOfMemory);
    };
    let edits = Edits::new(host.alloc);
    let workers = Workers::one();
    let asked = Request {
        fields,
        edits: &edits,
        workers: &workers,
    };
    match build(host, &asked, &label, cache, tree, sink, book) {
        Ok(built) => Ok(built.cache),
        Err(stop) => Err(stop.status()),
    }
}

// Edits the first module.
fn edit(alloc: Global, tree: &mut SureTree) -> Result<(), WantOfMemory>
    ensures { (n : ℕ) → ⟦<SureTree as Tree>⟧.held tree.old ≡ Some (workspace n) →
        OnOk result (⟦<SureTree as Tree>⟧.held tree.new ≡ Some (edited_workspace n)) }
{
    let path = module_path(alloc, 0)?;
    let bytes = edited_text(alloc)?;
    tree.put(path, bytes)?;
    Ok(())
}

// All is done, and no build begins from the last cache.
fn end(_last: Cache<Key, Out>) -> Status
    ensures { result ≡ Status.Done }
{
    Status::Done
}

// The third build, after the edit.
fn build_third<H: Threads + Sync, S: Sink, G: Gate>(
    host: &Host<'_, H, G>,
    fields: &Rows<Text>,
    cache: Cache<Key, Out>,
    tree: &mut SureTree,
    sink: &mut S,
    book: &mut Book<Key>,
) -> Status
    requires fields { fields.now ≡ job_fields selftest_job }
    ensures built { (n : ℕ) → ⟦<SureTree as Tree>⟧.held tree.old ≡ Some (workspace n)
        → AreSound means cache →
        WereBuilt (third_turn n ∷ []) result cache book.old book.new (S.written sink.old)
        (S.written sink.new) }
    ensures causes { Causes result 0 0 (S.faults sink.old) (S.faults sink.new) }
{
    let Ok(()) = edit(host.alloc, tree) else {
        return Status::WantOfMemory;
    };
    match build_named(host, b"third", fields, cache, tree, sink, book) {
        Ok(last) => end(last),
        Err(status) => status,
    }
}

// The second build, and the third.
fn build_second<H: Threads + Sync, S: Sink, G: Gate>(
    host: &Host<'_, H, G>,
    fields: &Rows<Text>,
    cache: Cache<Key, Out>,
    tree: &mut SureTree,
    sink: &mut S,
    book: &mut Book<Key>,
) -> Status
    requires fields { fields.now ≡ job_fields selftest_job }
    ensures built { (n : ℕ) → ⟦<SureTree as Tree>⟧.held tree.old ≡ Some (workspace n)
        → AreSound means cache →
        WereBuilt (second_turn n ∷ third_turn n ∷ []) result cache book.old book.new
        (S.written sink.old) (S.written sink.new) }
    ensures causes { Causes result 0 0 (S.faults sink.old) (S.faults sink.new) }
{
    match build_named(host, b"second", fields, cache, tree, sink, book) {
        Ok(next) => build_third(host, fields, next, tree, sink, book),
        Err(status) => status,
    }
}

/// Makes the workspace of n modules in memory, and builds it three times, each time from the cache
/// that the last build left; before the third, the dependency expression of the first module
/// becomes FALSE. The run goes on after a build of a fault, which is told.
pub fn selftest<H: Threads + Sync, S: Sink, G: Gate>(
    host: &Host<'_, H, G>,
    n: u64,
    sink: &mut S,
    book: &mut Book<Key>,
) -> Status
    ensures built { IsSelftest n result book.old book.new (S.written sink.old)
        (S.written sink.new) }
    ensures complete { IsSelftestComplete
        (HasFailed (S.faults sink.old) (S.faults sink.new)) result }
    ensures status { IsSelftestStatus result }
    ensures no_usage { OnUsage result ⊥ }
    ensures no_read_fault { OnReadFault result ⊥ }
    ensures causes { Causes result 0 0 (S.faults sink.old) (S.faults sink.new) }
{
    let Ok(fields) = selftest_fields(host.alloc) else {
        return Status::WantOfMemory;
    };
    let Ok(files) = selftest_files(host.alloc, n) else {
        return Status::WantOfMemory;
    };
    let mut tree = SureTree::new(host.alloc, files);
    let none = Cache::new(host.alloc);
    match build_named(host, b"first", &fields, none, &mut tree, sink, book) {
        Ok(next) => build_second(host, &fields, next, &mut tree, sink, book),
        Err(status) => status,
    }
}
