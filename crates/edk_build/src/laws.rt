//! Laws of what is kept.
ghost use Rattle.std.specs.Prelude.{◌≡◌, ◌++◌, ◌∷◌, ◌<◌, [], ℕ, List, Option, Some, None};
ghost use Rattle.build_base.specs.Outside.{Files};
ghost use Rattle.build_base.specs.Spelling.{Output};
ghost use Rattle.build_base.specs.World.{World};
ghost use Rattle.build_rules.specs.Adopting.{AreOlder, by_older};
ghost use Rattle.step_answers.specs.Readers.{EdkStages};
ghost use Rattle.build_stages.specs.Stages.{meaning_of};
ghost use Rattle.step_cache.specs.CacheText.{IsCacheText, IsNoText, IsTextOf};
ghost use Rattle.step_pack.specs.Keys.{key_cmp};
ghost use Rattle.step_engine.specs.Entries.{AreSound};
ghost use Rattle.step_engine.specs.declared.talk.Entry.{Entry as EntryOf};
ghost use Rattle.step_pack.specs.declared.key.Key.{Key as KeyOf};
ghost use Rattle.step_pack.specs.declared.out.Out.{Out as OutOf};
ghost use Rattle.edk_build.specs.Building.{means, IsCounted, Leaves};
ghost use Rattle.edk_build.specs.History.{AreCarriedOut};
ghost use Rattle.edk_build.specs.Kept.{IsSoundKept, StandsFor};
ghost use Rattle.edk_build.specs.KeptRuns.{AreRight, BuildRun, Follow, IsEnd, RanNothing};
ghost use Rattle.edk_build.specs.Statuses.{OnEnd};
ghost use Rattle.edk_build.specs.declared.replay_state.ReplayState.{ReplayState as ReplayStateOf};
ghost use Rattle.edk_build.specs.declared.script.ScriptLine.{ScriptLine as ScriptLineOf};

/// What is kept stands for one cache. Nothing, no cache's text, the text of a sound cache and each
/// prefix of it stand for none that isn't sound.
pub(crate) fn kept_is_one()
    ensures one { (kept : Option (List ℕ)) (a b : List (EntryOf KeyOf OutOf)) → StandsFor kept a
        → StandsFor kept b → a ≡ b }
    ensures nothing { IsSoundKept None }
    ensures no_text { (bytes : List ℕ) → IsNoText bytes → IsSoundKept (Some bytes) }
    ensures prefix { (cache : List (EntryOf KeyOf OutOf)) (front rest : List ℕ)
        → IsCacheText cache (front ++ rest) → AreSound means cache → IsSoundKept (Some front) }
{}

/// The text of a cache that a build of an older edition left, sound by the definitions of that
/// edition, and each prefix of it stand for no cache that isn't sound by today's: whatever the
/// definitions were of the steps whose entries don't stay.
pub(crate) fn older_texts_are_adopted()
    ensures { (edition : ℕ) (older : KeyOf → EdkStages) (cache : List (EntryOf KeyOf OutOf))
        (front rest : List ℕ) → edition < 5 → IsTextOf edition cache (front ++ rest)
        → AreOlder edition older → AreSound (meaning_of key_cmp (by_older older)) cache
        → IsSoundKept (Some front) }
{}

/// Runs of `build` with edits between them, each of which begins with what the one before it kept,
/// write what the definitions give for their words and the files of their moments, where the first
/// begins with what stands for no unsound cache. Each begins with the cache that what is kept stands
/// for, and what is kept then is the text of the cache that it leaves.
pub(crate) fn runs_are_right()
    ensures { (kept : Option (List ℕ)) (runs : List BuildRun) → IsSoundKept kept → Follow kept runs
        → AreRight runs }
{}

/// A run of the same words over the same files, behind one that came to its end, runs no step.
pub(crate) fn again_runs_nothing()
    ensures { (kept : Option (List ℕ)) (first second : BuildRun) → IsSoundKept kept
        → Follow kept (first ∷ second ∷ []) → second.files ≡ first.files → second.job ≡ first.job
        → IsEnd first.status → OnEnd second.status (RanNothing second) }
{}

/// A world and the cache that a build begins with determine the cache that it leaves, how many steps
/// it runs, and how many keys are needed.
pub(crate) fn builds_leave_one()
    ensures left { (w : World) (old a b : List (EntryOf KeyOf OutOf)) → Leaves w old a
        → Leaves w old b → a ≡ b }
    ensures counted { (w : World) (old : List (EntryOf KeyOf OutOf)) (m k n l : ℕ)
        → IsCounted w old m k → IsCounted w old n l → (m ≡ n) × (k ≡ l) }
{}

/// The lines of a script determine what a replay over the same files emits, and where it stands
/// behind them.
pub(crate) fn replays_emit_one()
    ensures { (files : Files) (lines : List ScriptLineOf) (s next after : ReplayStateOf)
        (a b c d : List KeyOf) (outputs others : List Output)
        → AreCarriedOut (Some files) lines s a outputs next b
        → AreCarriedOut (Some files) lines s c others after d
        → (outputs ≡ others) × (next ≡ after) }
{}
