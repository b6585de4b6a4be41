//! One build, from the cache that the last one left.
ghost use Rattle.std.specs.Prelude.{◌≡◌, true, IfOk, OnOk};
ghost use Rattle.build_base.specs.Outside.{HasFailed};
ghost use Rattle.build_base.specs.Spelling.{Spelled, SpelledCut};
ghost use Rattle.build_base.specs.World.{World};
ghost use Rattle.step_engine.specs.Build.{setting, IsEntryOf, IsHere, Ran, RanAll, HasRead, HasReadUnedited};
ghost use Rattle.step_engine.specs.Edits.{over};
ghost use Rattle.step_engine.specs.Entries.{AreSound};
ghost use Rattle.step_engine.specs.declared.talk.Outcome.{Outcome};
ghost use Rattle.step_pack.specs.declared.key.Key.TheVariants.{All};
ghost use Rattle.job_fields.specs.Readings.{is_job};
ghost use Rattle.edk_build.specs.Building.{means, AgreesOnGood, IsBrought, IsBuilt, IsCutShort, IsOwn, Leaves, result_status};
ghost use Rattle.edk_build.specs.Emitting.{status_of, emitted};
ghost use Rattle.edk_build.specs.Outcome.{files_by};
ghost use Rattle.edk_build.specs.Stops.{IfReadFault, IfWriteFault, IfUnwritten};

use crate::host::Host;
use crate::label::Label;
use crate::made::make_ready;
use crate::request::Request;
use crate::status::Status;
use crate::stop::Stop;
use build_base::{Book, Gate, Sink, Tree};
use build_rules::ParkedRules;
use std::alloc::Global;
use std::thread::Threads;
use step_engine::{Cache, EngineRefusal, Outcome, bring_over};
use step_pack::{Key, Out};

/// How a build ended that wrote what it came to, and the cache that it leaves.
#[derive(Drop)]
pub struct Built {
    pub status: Status,
    pub cache: Cache<Key, Out>,
}

// Writes what a build of this outcome comes to.
fn emit<S: Sink>(
    alloc: Global,
    label: &Label,
    given: &Outcome<Out>,
    cache: &Cache<Key, Out>,
    steps: u64,
    reused: u64,
    sink: &mut S,
) -> Result<Status, Stop>
    ensures ends { (value : Key → Outcome Out) → AgreesOnGood given.now value cache.now →
        IfOk result (λ s. s ≡ status_of (files_by value given.now)) }
    ensures written { (value : Key → Outcome Out) → AgreesOnGood given.now value cache.now →
        OnOk result (Spelled (S.written sink.old) (S.written sink.new)
        (emitted label.now (files_by value given.now) steps reused)) }
    ensures cut { (value : Key → Outcome Out) → AgreesOnGood given.now value cache.now →
        IfWriteFault result
        (SpelledCut (S.written sink.old) (S.written sink.new)
        (emitted label.now (files_by value given.now) steps reused)) }
    ensures own { IfOk result (λ s. s ≡ result_status given.now) }
    ensures count { OnOk result (S.faults sink.new ≡ S.faults sink.old) }
    ensures read_fault { IfReadFault result ⊥ }
    ensures write_fault { IfWriteFault result (HasFailed (S.faults sink.old) (S.faults sink.new)) }
    ensures unwritten { IfUnwritten result (S.written sink.new ≡ S.written sink.old) }
{
    let Ok(ready) = make_ready(alloc, label, given, cache, steps, reused) else {
        return Err(Stop::WantOfMemory);
    };
    match ready.write(sink) {
        Ok(()) => Ok(ready.status()),
        Err(_) => Err(Stop::WriteFault),
    }
}

/// What a build made before its first emission: its outcome, the cache that it leaves, how many
/// steps ran and were reused, and whether it leaves the cache that it was handed.
#[derive(Drop)]
pub struct Brought {
    pub given: Outcome<Out>,
    pub cache: Cache<Key, Out>,
    pub steps: u64,
    pub reused: u64,
    pub unchanged: bool,
}

/// Brings what is asked for, from the cache that the last build left, which is dropped where the
/// build stops.
pub(crate) fn bring_all<H: Threads + Sync, T: Tree, G: Gate>(
    host: &Host<'_, H, G>,
    asked: &Request<'_>,
    cache: Cache<Key, Out>,
    tree: &mut T,
    book: &mut Book<Key>,
) -> Result<Brought, Stop>
    requires job { is_job asked.now.fields.now ≡ true }

    // Where the tree tells what it holds and the cache is sound.
    ensures brought { IfOk result (λ b. (w : World) → IsHere
        (setting means (over asked.now.edits.now (T.held tree.old)) asked.now.fields.now cache) w
        → IsBrought w cache b.given b.cache b.steps b.reused) }

    // For any tree.
    ensures sound { AreSound means cache → IfOk result (λ b. AreSound means b.cache) }
    ensures own { IfOk result (λ b. IsEntryOf All b.given b.cache) }
    ensures unchanged { IfOk result (λ b. b.unchanged ≡ true → b.cache ≡ cache) }
    ensures held { T.held tree.new ≡ T.held tree.old }
    ensures tree_count { OnOk result (T.faults tree.new ≡ T.faults tree.old) }
    ensures read_fault { IfReadFault result (HasFailed (T.faults tree.old) (T.faults tree.new)) }
    ensures no_write { IfWriteFault result ⊥ }

    // Each step once, and only where wanted.
    ensures ran { Ran
        (setting means (over asked.now.edits.now (T.held tree.old)) asked.now.fields.now cache) All
        book.old book.new }
    ensures all { OnOk result (RanAll
        (setting means (over asked.now.edits.now (T.held tree.old)) asked.now.fields.now cache) All
        book.old book.new) }
    ensures read { HasRead
        (setting means (over asked.now.edits.now (T.held tree.old)) asked.now.fields.now cache) All
        (T.reads tree.old) (T.reads tree.new) }

    // A path that has an edit isn't read from the tree.
    ensures unedited { HasReadUnedited asked.now.edits.now (T.reads tree.old) (T.reads tree.new) }
{
    let before = book.ran().len() as u64;
    let rules = ParkedRules::new(host.alloc);
    let brought = match bring_over(
        host.rt,
        host.alloc,
        &rules,
        Key::All,
        asked.fields,
        cache,
        tree,
        asked.edits,
        book,
        asked.workers.number(),
        host.gate,
    ) {
        Ok(brought) => brought,
        Err(EngineRefusal::ReadFault) => return Err(Stop::ReadFault),
        Err(EngineRefusal::WantOfMemory) => return Err(Stop::WantOfMemory),
    };
    let steps = (book.ran().len() as u64).saturating_sub(before);
    let reused = brought.needed.saturating_sub(steps);
    Ok(Brought {
        given: brought.result,
        cache: brought.cache,
        steps,
        reused,
        unchanged: brought.unchanged,
    })
}

/// Builds what is asked for, from the cache that the last build left, which is dropped where the
/// build stops.
///
/// All is read, and all memory is taken, before the first emission.
pub fn build<H: Threads + Sync, T: Tree, S: Sink, G: Gate>(
    host: &Host<'_, H, G>,
    asked: &Request<'_>,
    label: &Label,
    cache: Cache<Key, Out>,
    tree: &mut T,
    sink: &mut S,
    book: &mut Book<Key>,
) -> Result<Built, Stop>
    requires job { is_job asked.now.fields.now ≡ true }

    // Where the tree tells what it holds and the cache is sound.
    ensures built { IfOk result (λ b. (w : World) → IsHere
        (setting means (over asked.now.edits.now (T.held tree.old)) asked.now.fields.now cache) w
        → IsBuilt w cache label.now b.status (S.written sink.old) (S.written sink.new)) }
    ensures left { IfOk result (λ b. (w : World) → IsHere
        (setting means (over asked.now.edits.now (T.held tree.old)) asked.now.fields.now cache) w
        → Leaves w cache b.cache) }
    ensures cut { IfWriteFault result ((w : World) → IsHere
        (setting means (over asked.now.edits.now (T.held tree.old)) asked.now.fields.now cache) w
        → IsCutShort w cache label.now (S.written sink.old) (S.written sink.new)) }

    // For any tree.
    ensures sound { AreSound means cache → IfOk result (λ b. AreSound means b.cache) }
    ensures own { IfOk result (λ b. IsOwn b.status b.cache) }
    ensures held { T.held tree.new ≡ T.held tree.old }
    ensures tree_count { OnOk result (T.faults tree.new ≡ T.faults tree.old) }
    ensures sink_count { OnOk result (S.faults sink.new ≡ S.faults sink.old) }
    ensures read_fault { IfReadFault result (HasFailed (T.faults tree.old) (T.faults tree.new)) }
    ensures write_fault { IfWriteFault result (HasFailed (S.faults sink.old) (S.faults sink.new)) }
    ensures unwritten { IfUnwritten result (S.written sink.new ≡ S.written sink.old) }

    // Each step once, and only where wanted.
    ensures ran { Ran
        (setting means (over asked.now.edits.now (T.held tree.old)) asked.now.fields.now cache) All
        book.old book.new }
    ensures all { OnOk result (RanAll
        (setting means (over asked.now.edits.now (T.held tree.old)) asked.now.fields.now cache) All
        book.old book.new) }
    ensures read { HasRead
        (setting means (over asked.now.edits.now (T.held tree.old)) asked.now.fields.now cache) All
        (T.reads tree.old) (T.reads tree.new) }

    // A path that has an edit isn't read from the tree.
    ensures unedited { HasReadUnedited asked.now.edits.now (T.reads tree.old) (T.reads tree.new) }
{
    let brought = bring_all(host, asked, cache, tree, book)?;
    let status = emit(
        host.alloc,
        label,
        &brought.given,
        &brought.cache,
        brought.steps,
        brought.reused,
        sink,
    )?;
    Ok(Built {
        status,
        cache: brought.cache,
    })
}
