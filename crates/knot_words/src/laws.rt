//! Laws of words and of the limits of jobs, over the definitions alone.
ghost use Rattle.std.specs.Prelude.{◌≡◌, List, [], ◌∷◌, Some, None};
ghost use Rattle.std.specs.List.{AllByRecursion};
ghost use Rattle.clap.specs.Walk.{Text};
ghost use Rattle.knot_words.specs.Words.{Asks, AsksNothing};
ghost use Rattle.knot_words.specs.Limits.{limit_of};

use crate::job::{Job, PlainJob};
use crate::words::Asked;

/// Words ask for at most one thing, and no words both ask for something and ask for nothing.
pub fn words_ask_for_one_thing()
    ensures once { (words : List Text) (a b : Asked) → Asks words a → Asks words b → a ≡ b }
    ensures never_both { (words : List Text) (a : Asked) → Asks words a → AsksNothing words → ⊥ }
{}

/// The most bytes that an input may have: 33,554,432 of `check`, which reads evidence, and 1,048,576 of the others, `braidcheck` and
/// `weights` among them. `sample` has no input.
pub fn each_job_has_its_limit()
    ensures check { limit_of (Job.Plain PlainJob.Check) ≡ Some 33554432 }
    ensures searches { AllByRecursion (λ (job : Job). limit_of job ≡ Some 1048576) (Job.Decide ∷ Job.Simplify ∷ Job.Least ∷ []) }
    ensures others { AllByRecursion (λ (job : PlainJob). limit_of (Job.Plain job) ≡ Some 1048576) (PlainJob.Replay ∷ PlainJob.Colour
        ∷ PlainJob.Close ∷ PlainJob.Code ∷ PlainJob.Braid ∷ PlainJob.Linking ∷ PlainJob.Braidcheck ∷ PlainJob.Weights ∷ PlainJob.Numbers
        ∷ PlainJob.Grid ∷ []) }
    ensures sample { limit_of Job.Sample ≡ None }
{}
