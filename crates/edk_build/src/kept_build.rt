//! One build from the cache that is kept, and what is kept after it.
ghost use Rattle.std.specs.Prelude.{◌≡◌, ◌⊎◌, ℕ, List, true, Some, IfOk, OnOk, IfSome};
ghost use Rattle.build_base.specs.Outside.{HasFailed};
ghost use Rattle.job_fields.specs.Readings.{is_job};
ghost use Rattle.job_fields.specs.Fields.{job_fields};
ghost use Rattle.build_rules.specs.Adopting.{adopted};
ghost use Rattle.step_cache.specs.CacheText.{IsCacheText, is_edition, newest};
ghost use Rattle.step_engine.specs.Build.{setting, Ran, RanAll, HasRead};
ghost use Rattle.step_pack.specs.declared.key.Key.TheVariants.{All};
ghost use Rattle.edk_build.specs.Building.{means, result_status};
ghost use Rattle.edk_build.specs.Kept.{HasText, IsKept, IsSoundKept, StandsFor, StaysSound};
ghost use Rattle.edk_build.specs.Run.{IsComplete, world_of};
ghost use Rattle.edk_build.specs.KeptBuild.{AsMade, HasBuilt, HasEnded, EndsAtFailure, HasStopped, RanWanted, WroteAll, told};
ghost use Rattle.edk_build.specs.Made.{made_outputs};
ghost use Rattle.edk_build.specs.Statuses.{OnEnd, OnReadFault};
ghost use Rattle.edk_build.specs.Stops.{IfReadFault, IfUnwritten, IfWriteFault};

use crate::build::{Brought, bring_all};
use crate::host::Host;
use crate::label::Label;
use crate::made::{PreparedOutputs, make_ready};
use crate::request::Request;
use crate::status::Status;
use crate::stop::Stop;
use build_base::{Book, Gate, Keeper, KeeperFailed, Sink, Text, Tree, WantOfMemory};
use build_rules::adopt;
use job_fields::Job;
use job_fields::fields::job_fields;
use kept_texts::text_of;
use std::alloc::Global;
use std::thread::Threads;
use step_cache::{Kept, NEWEST};
use step_engine::{Cache, Edits};
use step_pack::{Key, Out};

/// The cache that is loaded, and whether what is kept is its text.
#[derive(Drop)]
struct Loaded {
    cache: Cache<Key, Out>,
    is_text: bool,
}

// What holds of a cache that was read, and whether it is of the newest edition.
#[tactic(auto, using(crate::proofs::KeptLemmas::least_edition, crate::proofs::KeptLemmas::most_edition))]
fn adopted_cache(kept: Kept) -> Loaded
    requires { is_edition kept.edition ≡ true }
    ensures cache { result.cache ≡ adopted kept.edition kept.cache }
    ensures newest { result.is_text ≡ true → (kept.edition ≡ newest) × (result.cache ≡ kept.cache) }
{
    let Kept { edition, cache } = kept;
    let is_text = edition == NEWEST;
    Loaded {
        cache: adopt(edition, cache),
        is_text,
    }
}

// The cache that a text stands for.
#[tactic(auto, using(crate::proofs::KeptLemmas::stands_for, crate::proofs::KeptLemmas::newest_text))]
fn cache_in(alloc: Global, text: &Text) -> Result<Loaded, WantOfMemory>
    ensures stands { IfOk result (λ l. StandsFor (Some text.now) l.cache) }
    ensures text { IfOk result (λ l. l.is_text ≡ true → IsCacheText l.cache text.now) }
{
    match kept_texts::cache_in(alloc, text)? {
        Some(kept) => Ok(adopted_cache(kept)),
        None => Ok(Loaded {
            cache: Cache::new(alloc),
            is_text: false,
        }),
    }
}

// The cache that is kept.
fn load_cache<K: Keeper>(alloc: Global, keeper: &mut K) -> Result<Loaded, Stop>
    ensures stands { IfOk result
        (λ l. IfSome (K.kept keeper.old) (λ kept. StandsFor kept l.cache)) }
    ensures text { IfOk result (λ l. l.is_text ≡ true → HasText (K.kept keeper.old) l.cache) }
    ensures kept { K.kept keeper.new ≡ K.kept keeper.old }
    ensures count { OnOk result (K.faults keeper.new ≡ K.faults keeper.old) }
    ensures read_fault { IfReadFault result
        (HasFailed (K.faults keeper.old) (K.faults keeper.new)) }
    ensures no_write { IfWriteFault result ⊥ }
{
    match keeper.load() {
        Ok(None) => Ok(Loaded {
            cache: Cache::new(alloc),
            is_text: false,
        }),
        Ok(Some(text)) => match cache_in(alloc, &text) {
            Ok(loaded) => Ok(loaded),
            Err(_) => Err(Stop::WantOfMemory),
        },
        Err(KeeperFailed::Failed) => Err(Stop::ReadFault),
        Err(KeeperFailed::WantOfMemory) => Err(Stop::WantOfMemory),
    }
}

// Writes what stands ready, and stores the text before the summary, without taking memory.
fn write_kept<S: Sink, K: Keeper>(
    ready: &PreparedOutputs<'_>,
    text: &Text,
    sink: &mut S,
    keeper: &mut K,
) -> Result<(), Stop>
    ensures all { OnOk result (WroteAll (made_outputs ready.now.made) ready.now.summary text.now
        (told (S.written sink.old) (K.kept keeper.old) (S.faults sink.old) (K.faults keeper.old))
        (told (S.written sink.new) (K.kept keeper.new) (S.faults sink.new) (K.faults keeper.new))) }
    ensures failed { IfWriteFault result
        (EndsAtFailure (made_outputs ready.now.made) ready.now.summary text.now
        (told (S.written sink.old) (K.kept keeper.old) (S.faults sink.old) (K.faults keeper.old))
        (told (S.written sink.new) (K.kept keeper.new) (S.faults sink.new) (K.faults keeper.new))) }
    ensures sink_count { OnOk result (S.faults sink.new ≡ S.faults sink.old) }
    ensures keeper_count { OnOk result (K.faults keeper.new ≡ K.faults keeper.old) }
    ensures write_fault { IfWriteFault result
        (HasFailed (S.faults sink.old) (S.faults sink.new)
        ⊎ HasFailed (K.faults keeper.old) (K.faults keeper.new)) }
    ensures no_other { IfUnwritten result ⊥ }
{
    if ready.write_outputs(sink).is_err() {
        return Err(Stop::WriteFault);
    }
    if keeper.store(text.bytes()).is_err() {
        return Err(Stop::WriteFault);
    }
    if ready.write_summary(sink).is_err() {
        return Err(Stop::WriteFault);
    }
    Ok(())
}

// Writes what stands ready, where what is kept is the text already.
fn write_again<S: Sink, K: Keeper>(
    ready: &PreparedOutputs<'_>,
    to: &mut S,
    keeper: &K,
) -> Result<(), Stop>
    ensures all { (text : List ℕ) → IsKept (K.kept keeper.now) text
        → OnOk result (WroteAll (made_outputs ready.now.made) ready.now.summary text
        (told (S.written to.old) (K.kept keeper.now) (S.faults to.old) (K.faults keeper.now))
        (told (S.written to.new) (K.kept keeper.now) (S.faults to.new) (K.faults keeper.now))) }
    ensures failed { (text : List ℕ) → IsKept (K.kept keeper.now) text
        → IfWriteFault result (EndsAtFailure (made_outputs ready.now.made) ready.now.summary text
        (told (S.written to.old) (K.kept keeper.now) (S.faults to.old) (K.faults keeper.now))
        (told (S.written to.new) (K.kept keeper.now) (S.faults to.new) (K.faults keeper.now))) }
    ensures sink_count { OnOk result (S.faults to.new ≡ S.faults to.old) }
    ensures write_fault { IfWriteFault result (HasFailed (S.faults to.old) (S.faults to.new)) }
    ensures no_other { IfUnwritten result ⊥ }
{
    if ready.write_outputs(to).is_err() {
        return Err(Stop::WriteFault);
    }
    if ready.write_summary(to).is_err() {
        return Err(Stop::WriteFault);
    }
    Ok(())
}

// Writes what a build made, and stores the text of the cache that it leaves. All memory is taken
// before the first emission.
fn emit_stored<S: Sink, K: Keeper>(
    alloc: Global,
    brought: &Brought,
    sink: &mut S,
    keeper: &mut K,
) -> Result<Status, Stop>
    ensures all { OnOk result
        (AsMade brought.now.given brought.now.cache brought.now.steps brought.now.reused
        (λ outputs line stored. WroteAll outputs line stored
        (told (S.written sink.old) (K.kept keeper.old) (S.faults sink.old) (K.faults keeper.old))
        (told (S.written sink.new) (K.kept keeper.new) (S.faults sink.new)
        (K.faults keeper.new)))) }
    ensures failed { IfWriteFault result
        (AsMade brought.now.given brought.now.cache brought.now.steps brought.now.reused
        (λ outputs line stored. EndsAtFailure outputs line stored
        (told (S.written sink.old) (K.kept keeper.old) (S.faults sink.old) (K.faults keeper.old))
        (told (S.written sink.new) (K.kept keeper.new) (S.faults sink.new)
        (K.faults keeper.new)))) }
    ensures status { IfOk result (λ s. s ≡ result_status brought.now.given) }
    ensures sink_count { OnOk result (S.faults sink.new ≡ S.faults sink.old) }
    ensures keeper_count { OnOk result (K.faults keeper.new ≡ K.faults keeper.old) }
    ensures write_fault { IfWriteFault result
        (HasFailed (S.faults sink.old) (S.faults sink.new)
        ⊎ HasFailed (K.faults keeper.old) (K.faults keeper.new)) }
    ensures no_read { IfReadFault result ⊥ }
    ensures unwritten { IfUnwritten result (S.written sink.new ≡ S.written sink.old) }
    ensures kept { IfUnwritten result (K.kept keeper.new ≡ K.kept keeper.old) }
{
    let label = Label {
        folder: None,
        tells_status: false,
    };
    let Ok(text) = text_of(alloc, &brought.cache) else {
        return Err(Stop::WantOfMemory);
    };
    let Ok(ready) = make_ready(
        alloc,
        &label,
        &brought.given,
        &brought.cache,
        brought.steps,
        brought.reused,
    ) else {
        return Err(Stop::WantOfMemory);
    };
    match write_kept(&ready, &text, sink, keeper) {
        Ok(()) => Ok(ready.status()),
        Err(stop) => Err(stop),
    }
}

// Writes what a build made that leaves the cache whose text is kept. All memory is taken before the
// first emission.
fn emit_again<S: Sink, K: Keeper>(
    alloc: Global,
    brought: &Brought,
    sink: &mut S,
    keeper: &K,
) -> Result<Status, Stop>
    requires { HasText (K.kept keeper.now) brought.now.cache }
    ensures all { OnOk result
        (AsMade brought.now.given brought.now.cache brought.now.steps brought.now.reused
        (λ outputs line stored. WroteAll outputs line stored
        (told (S.written sink.old) (K.kept keeper.now) (S.faults sink.old) (K.faults keeper.now))
        (told (S.written sink.new) (K.kept keeper.now) (S.faults sink.new)
        (K.faults keeper.now)))) }
    ensures failed { IfWriteFault result
        (AsMade brought.now.given brought.now.cache brought.now.steps brought.now.reused
        (λ outputs line stored. EndsAtFailure outputs line stored
        (told (S.written sink.old) (K.kept keeper.now) (S.faults sink.old) (K.faults keeper.now))
        (told (S.written sink.new) (K.kept keeper.now) (S.faults sink.new)
        (K.faults keeper.now)))) }
    ensures status { IfOk result (λ s. s ≡ result_status brought.now.given) }
    ensures sink_count { OnOk result (S.faults sink.new ≡ S.faults sink.old) }
    ensures write_fault { IfWriteFault result (HasFailed (S.faults sink.old) (S.faults sink.new)) }
    ensures no_read { IfReadFault result ⊥ }
    ensures unwritten { IfUnwritten result (S.written sink.new ≡ S.written sink.old) }
{
    let label = Label {
        folder: None,
        tells_status: false,
    };
    let Ok(ready) = make_ready(
        alloc,
        &label,
        &brought.given,
        &brought.cache,
        brought.steps,
        brought.reused,
    ) else {
        return Err(Stop::WantOfMemory);
    };
    match write_again(&ready, sink, keeper) {
        Ok(()) => Ok(ready.status()),
        Err(stop) => Err(stop),
    }
}

// Writes what a build made, and stores the text of the cache that it leaves, unless what is kept is
// that text already.
fn emit_kept<S: Sink, K: Keeper>(
    alloc: Global,
    brought: &Brought,
    is_kept: bool,
    sink: &mut S,
    keeper: &mut K,
) -> Result<Status, Stop>
    requires { is_kept ≡ true → HasText (K.kept keeper.old) brought.now.cache }
    ensures all { OnOk result
        (AsMade brought.now.given brought.now.cache brought.now.steps brought.now.reused
        (λ outputs line stored. WroteAll outputs line stored
        (told (S.written sink.old) (K.kept keeper.old) (S.faults sink.old) (K.faults keeper.old))
        (told (S.written sink.new) (K.kept keeper.new) (S.faults sink.new)
        (K.faults keeper.new)))) }
    ensures failed { IfWriteFault result
        (AsMade brought.now.given brought.now.cache brought.now.steps brought.now.reused
        (λ outputs line stored. EndsAtFailure outputs line stored
        (told (S.written sink.old) (K.kept keeper.old) (S.faults sink.old) (K.faults keeper.old))
        (told (S.written sink.new) (K.kept keeper.new) (S.faults sink.new)
        (K.faults keeper.new)))) }
    ensures status { IfOk result (λ s. s ≡ result_status brought.now.given) }
    ensures sink_count { OnOk result (S.faults sink.new ≡ S.faults sink.old) }
    ensures keeper_count { OnOk result (K.faults keeper.new ≡ K.faults keeper.old) }
    ensures write_fault { IfWriteFault result
        (HasFailed (S.faults sink.old) (S.faults sink.new)
        ⊎ HasFailed (K.faults keeper.old) (K.faults keeper.new)) }
    ensures no_read { IfReadFault result ⊥ }
    ensures unwritten { IfUnwritten result (S.written sink.new ≡ S.written sink.old) }
    ensures kept { IfUnwritten result (K.kept keeper.new ≡ K.kept keeper.old) }
{
    if is_kept {
        return emit_again(alloc, brought, sink, keeper);
    }
    emit_stored(alloc, brought, sink, keeper)
}

// Whether the text of the cache that a build leaves is kept already: that of the cache that was
// loaded, which the build leaves as it was. A report may stand where the cache is kept, so with one
// the text is stored.
fn keeps_text(job: &Job, is_text: bool, unchanged: bool) -> bool
    ensures { result ≡ true → (is_text ≡ true) × (unchanged ≡ true) }
{
    if job.files.report.is_some() {
        return false;
    }
    if !is_text {
        return false;
    }
    unchanged
}

// Builds what a job asks for from the cache that was loaded, and keeps the one that it leaves.
fn build_from<H: Threads + Sync, T: Tree, S: Sink, K: Keeper, G: Gate>(
    host: &Host<'_, H, G>,
    job: &Job,
    loaded: Loaded,
    tree: &mut T,
    sink: &mut S,
    keeper: &mut K,
    book: &mut Book<Key>,
) -> Result<Status, Stop>
    requires job { is_job (job_fields job.now) ≡ true }
    requires text { loaded.is_text ≡ true → HasText (K.kept keeper.old) loaded.cache }
    ensures ended { IfOk result (λ s. HasEnded (T.held tree.old) job.now loaded.cache s
        (told (S.written sink.old) (K.kept keeper.old) (S.faults sink.old) (K.faults keeper.old))
        (told (S.written sink.new) (K.kept keeper.new) (S.faults sink.new) (K.faults keeper.new))) }
    ensures stopped { IfWriteFault result (HasStopped (T.held tree.old) job.now loaded.cache
        (told (S.written sink.old) (K.kept keeper.old) (S.faults sink.old) (K.faults keeper.old))
        (told (S.written sink.new) (K.kept keeper.new) (S.faults sink.new) (K.faults keeper.new))) }
    ensures kept { IfUnwritten result (K.kept keeper.new ≡ K.kept keeper.old) }
    ensures unwritten { IfUnwritten result (S.written sink.new ≡ S.written sink.old) }
    ensures held { T.held tree.new ≡ T.held tree.old }
    ensures tree_count { OnOk result (T.faults tree.new ≡ T.faults tree.old) }
    ensures sink_count { OnOk result (S.faults sink.new ≡ S.faults sink.old) }
    ensures keeper_count { OnOk result (K.faults keeper.new ≡ K.faults keeper.old) }
    ensures read_fault { IfReadFault result (HasFailed (T.faults tree.old) (T.faults tree.new)) }
    ensures write_fault { IfWriteFault result
        (HasFailed (S.faults sink.old) (S.faults sink.new)
        ⊎ HasFailed (K.faults keeper.old) (K.faults keeper.new)) }
    ensures ran { Ran (setting means (T.held tree.old) (job_fields job.now) loaded.cache) All
        book.old book.new }
    ensures all { OnOk result
        (RanAll (setting means (T.held tree.old) (job_fields job.now) loaded.cache) All book.old
        book.new) }
    ensures read { HasRead (setting means (T.held tree.old) (job_fields job.now) loaded.cache) All
        (T.reads tree.old) (T.reads tree.new) }
{
    let Ok(fields) = job_fields(host.alloc, job) else {
        return Err(Stop::WantOfMemory);
    };
    let Loaded { cache, is_text } = loaded;
    let edits = Edits::new(host.alloc);
    let asked = Request {
        fields: &fields,
        edits: &edits,
        workers: &job.workers,
    };
    let brought = match bring_all(host, &asked, cache, tree, book) {
        Ok(brought) => brought,
        Err(stop) => return Err(stop),
    };
    let is_kept = keeps_text(job, is_text, brought.unchanged);
    emit_kept(host.alloc, &brought, is_kept, sink, keeper)
}

/// Builds what a job asks for from the cache that is kept, which it loads first, and keeps the one
/// that it leaves: the text of that is stored after the outputs and before the summary, unless it
/// is what is kept.
///
/// All is read, and all memory is taken, before the first emission.
pub(crate) fn build_kept<H: Threads + Sync, T: Tree, S: Sink, K: Keeper, G: Gate>(
    host: &Host<'_, H, G>,
    job: &Job,
    tree: &mut T,
    sink: &mut S,
    keeper: &mut K,
    book: &mut Book<Key>,
) -> Status
    requires job { is_job (job_fields job.now) ≡ true }
    ensures built { HasBuilt (T.held tree.old) job.now result
        (told (S.written sink.old) (K.kept keeper.old) (S.faults sink.old) (K.faults keeper.old))
        (told (S.written sink.new) (K.kept keeper.new) (S.faults sink.new) (K.faults keeper.new)) }
    ensures steps { RanWanted (T.held tree.old) (job_fields job.now) (K.kept keeper.old) result
        book.old book.new (T.reads tree.old) (T.reads tree.new) }

    // The tree.
    ensures held { T.held tree.new ≡ T.held tree.old }
    ensures tree_count { OnEnd result (T.faults tree.new ≡ T.faults tree.old) }
    ensures read_fault { OnReadFault result
        (HasFailed (T.faults tree.old) (T.faults tree.new)
        ⊎ (HasFailed (K.faults keeper.old) (K.faults keeper.new) × (tree.new ≡ tree.old)
        × (sink.new ≡ sink.old) × (book.new ≡ book.old))) }

    // Where what is kept is sound.
    ensures complete { IfSome (T.held tree.old)
        (λ files. IfSome (K.kept keeper.old) (λ kept. IsSoundKept kept →
        IsComplete (world_of files job.now)
        (HasFailed (T.faults tree.old) (T.faults tree.new)
        ⊎ HasFailed (K.faults keeper.old) (K.faults keeper.new))
        (HasFailed (S.faults sink.old) (S.faults sink.new)) result)) }
    ensures stays_sound { StaysSound (K.kept keeper.old) (K.kept keeper.new) }
{
    let loaded = match load_cache(host.alloc, keeper) {
        Ok(loaded) => loaded,
        Err(stop) => return stop.status(),
    };
    match build_from(host, job, loaded, tree, sink, keeper, book) {
        Ok(status) => status,
        Err(stop) => stop.status(),
    }
}
