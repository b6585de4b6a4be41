//! What the words of a build give.
ghost use Rattle.std.specs.Prelude.{◌≡◌, ℕ, List, Some};
ghost use Rattle.build_words.specs.Jobs.{words_job};
ghost use Rattle.job_fields.specs.HasWords.{HasWords};
ghost use Rattle.job_fields.specs.declared.job.Job.{Job};

/// What the words of a build give its job: each text passes its check.
pub fn words_give_jobs()
    ensures { (words : List (List ℕ)) (job : Job) → words_job words ≡ Some job → HasWords job }
{}
