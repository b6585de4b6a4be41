//! The top call of the program: one step in front of what carries it out, so that what it answers is
//! checked by itself.
ghost use Rattle.std.specs.Prelude.{◌≡◌, ◌⊎◌, IfSome};
ghost use Rattle.build_base.specs.Outside.{Files, HasFailed};
ghost use Rattle.job_fields.specs.Fields.{job_fields};
ghost use Rattle.edk_build.specs.Commands.{asked, IfBuild, IfNoBuild, IfReplay, IfSelftest, IfVolinfo, IfNoSeries, OfBuild};
ghost use Rattle.edk_build.specs.History.{IsReplayComplete};
ghost use Rattle.edk_build.specs.Kept.{StaysSound};
ghost use Rattle.edk_build.specs.KeptBuild.{HasBuilt, RanWanted, told};
ghost use Rattle.edk_build.specs.Outcome.{outcome};
ghost use Rattle.edk_build.specs.Run.{world_of};
ghost use Rattle.edk_build.specs.TopCall.{HasReplayed, HasTested, IsBuildComplete, IsMisused};
ghost use Rattle.edk_build.specs.Statuses.{OnEnd, OnUnwritten, OnReadFault, OnWriteFault};
ghost use Rattle.edk_build.specs.Volinfo.{IsVolinfo};
ghost use Rattle.named_faults.specs.Named.{FailsByName};

use build_base::{Book, Gate, Keeper, Sink, Tree};
use edk_build::Status;
use std::alloc::Global;
use std::thread::Threads;
use step_pack::Key;

/// Does what the words say, a build, a replay, a selftest or the listing of an image: reads from
/// `tree`, writes to `sink`, and notes in `book` the steps that ran. Of each build all is read, and
/// all memory is taken, before its first emission. What `keeper` keeps is that of the words `build`
/// alone: they begin with the cache that is kept, and keep the one that they leave.
#[tactic(auto, using(crate::proofs::NamedLemmas::build_fails_by_name))]
pub fn run<H: Threads + Sync, T: Tree, S: Sink, K: Keeper, G: Gate>(
    rt: &H,
    alloc: Global,
    words: &[String],
    tree: &mut T,
    sink: &mut S,
    keeper: &mut K,
    gate: &G,
    book: &mut Book<Key>,
) -> Status
    // A build, from the cache that was kept. What it wrote and kept, which steps ran and what was read;
    // that it is complete, and that each fault of its outcome has a name.
    ensures built { IfBuild (asked words.now) (λ job. HasBuilt (T.held tree.old) job result
        (told (S.written sink.old) (K.kept keeper.old) (S.faults sink.old) (K.faults keeper.old))
        (told (S.written sink.new) (K.kept keeper.new) (S.faults sink.new) (K.faults keeper.new))) }
    ensures ran { IfBuild (asked words.now) (λ job. RanWanted (T.held tree.old) (job_fields job)
        (K.kept keeper.old) result book.old book.new (T.reads tree.old) (T.reads tree.new)) }
    ensures complete { IfBuild (asked words.now) (λ job. IsBuildComplete (T.held tree.old) job
        (K.kept keeper.old) result (T.faults tree.old) (T.faults tree.new) (K.faults keeper.old)
        (K.faults keeper.new) (S.faults sink.old) (S.faults sink.new)) }
    ensures named { IfBuild (asked words.now)
        (λ job. (files : Files) → FailsByName (outcome (world_of files job))) }

    // What is kept.
    ensures keeper { IfNoBuild (asked words.now) (keeper.new ≡ keeper.old) }
    ensures stays_sound { StaysSound (K.kept keeper.old) (K.kept keeper.new) }

    // A replay: what it wrote, its status, what the book became and what it read; that it is complete.
    ensures replayed { IfReplay (asked words.now) (λ at. HasReplayed (T.held tree.old) at result
        book.old book.new (S.written sink.old) (S.written sink.new) (T.reads tree.old)
        (T.reads tree.new)) }
    ensures replay_complete { IfReplay (asked words.now) (λ at. IfSome (T.held tree.old) (λ files.
        IsReplayComplete files at (HasFailed (T.faults tree.old) (T.faults tree.new))
        (HasFailed (S.faults sink.old) (S.faults sink.new)) result)) }

    // A selftest, for which the tree isn't asked.
    ensures selftest { IfSelftest (asked words.now) (λ n. HasTested n result book.old book.new
        (S.written sink.old) (S.written sink.new) (S.faults sink.old) (S.faults sink.new)
        (tree.new ≡ tree.old)) }

    // The listing of an image, of which no step is run.
    ensures volinfo { IfVolinfo (asked words.now) (λ at. IsVolinfo (T.held tree.old) at result
        (S.written sink.old) (S.written sink.new) × (book.new ≡ book.old)) }

    // Words, or a script, that aren't in the grammar.
    ensures usage { IsMisused (T.held tree.old) (asked words.now) result (S.faults sink.old)
        (S.faults sink.new) (S.written sink.old) (S.written sink.new) (tree.new ≡ tree.old)
        (book.new ≡ book.old) }

    // The objects.
    ensures unwritten { OnUnwritten result
        (IfNoSeries (asked words.now) (S.written sink.new ≡ S.written sink.old)) }
    ensures counts { OnEnd result ((T.faults tree.new ≡ T.faults tree.old)
        × (S.faults sink.new ≡ S.faults sink.old) × (K.faults keeper.new ≡ K.faults keeper.old)) }
    ensures read_fault { OnReadFault result (HasFailed (T.faults tree.old) (T.faults tree.new)
        ⊎ OfBuild (asked words.now) (HasFailed (K.faults keeper.old) (K.faults keeper.new)
        × (tree.new ≡ tree.old) × (sink.new ≡ sink.old) × (book.new ≡ book.old))) }
    ensures write_fault { OnWriteFault result (HasFailed (S.faults sink.old) (S.faults sink.new)
        ⊎ OfBuild (asked words.now) (HasFailed (K.faults keeper.old) (K.faults keeper.new))) }
    ensures held { T.held tree.new ≡ T.held tree.old }
{
    edk_build::run(rt, alloc, words, tree, sink, keeper, gate, book)
}
