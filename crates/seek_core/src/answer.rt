//! The answer to an input: the text of what can be said of its diagrams, or what was tried, or its first bad line.
ghost use Rattle.std.specs.Prelude.{◌≡◌, ℕ, List, Ok, IfOk};
ghost use Rattle.std.specs.List.{All};
ghost use Rattle.knot_text.specs.Printed.{HasQuandleText};
ghost use Rattle.verdict_text.specs.Problems.{problem_of};
ghost use Rattle.verdict_core.specs.Diagrams.{column_count};
ghost use Rattle.seek_core.specs.Answers.{IsTrueAnswer};

use crate::blocks::Blocks;
use crate::bounds::Resources;
use crate::finding::{SearchOutcome, find};
use certificate_check::laws::what_holds_is_a_decision;
use certificates::print_said;
use knot_text::read_problem;
use meeting_walks::Watch;
use memory_core::{Items, OutOfMemory};
use std::thread::Threads;
use text_items::TextFault;
use verdict_core::{Listed, ProblemText};
use verdict_laws::decisions::a_verdict_that_holds_is_a_decision;

/// What was tried of two diagrams, whose linking numbers agree, without finding anything.
#[derive(Drop)]
pub struct Tried {
    /// The columns of both diagrams.
    pub columns: (u8, u8),
    /// The quandles that fit both diagrams, none of which separates them.
    pub quandles: Items<Listed>,
    /// How many of the blocks fit the seeds of both diagrams, none of which distinguishes them.
    pub blocks: usize,
}

/// What is answered to an input.
#[derive(Drop)]
pub enum Answer {
    /// The text of a verdict, or of evidence by numbers.
    Decided(Items<u8>),
    /// Nothing was found.
    NotFound(Tried),
    /// The first bad line doesn't have the form of what is due there, or says what can't be, or follows the end.
    Malformed { line: usize },
    /// The first bad line exceeds a limit.
    Limit { line: usize },
}

/// The answer to the bytes of an input: a problem is decided where something can be said of its diagrams that is found by the blocks and within
/// the bounds. It fails only if memory runs out.
pub fn answer_to<R: Threads + Sync, W: Watch>(
    resources: &Resources<'_, R>,
    bytes: &[u8],
    blocks: &Blocks,
    watch: &mut W,
) -> Result<Answer, OutOfMemory>
    ensures { IfOk result (λ a. IsTrueAnswer bytes.now blocks.now a) }
{
    a_verdict_that_holds_is_a_decision();
    match read_problem(resources.alloc, bytes) {
        Ok(problem) => answer_problem(resources, &problem, blocks, watch),
        Err(TextFault::OutOfMemory) => Err(OutOfMemory),
        Err(TextFault::Malformed { line }) => Ok(Answer::Malformed { line }),
        Err(TextFault::Limit { line }) => Ok(Answer::Limit { line }),
    }
}

/// The answer to a problem, from whatever bytes it was read.
fn answer_problem<R: Threads + Sync, W: Watch>(
    resources: &Resources<'_, R>,
    problem: &ProblemText,
    blocks: &Blocks,
    watch: &mut W,
) -> Result<Answer, OutOfMemory>
    requires { All HasQuandleText problem.now.quandles }
    ensures { (bytes : List ℕ) → problem_of bytes ≡ Ok problem.now → IfOk result (λ a. IsTrueAnswer bytes blocks.now a) }
{
    what_holds_is_a_decision();
    let SearchOutcome {
        said,
        quandles,
        blocks: fitting,
    } = find(resources, problem, blocks, watch)?;
    match said {
        Some(said) => {
            let text = print_said(resources.alloc, &said)?;
            Ok(Answer::Decided(Items::from_vec(text)))
        }
        None => Ok(Answer::NotFound(in_vain(problem, quandles, fitting))),
    }
}

/// What was tried of the diagrams of a problem, where nothing was found: these quandles, and so many of the blocks.
fn in_vain(problem: &ProblemText, quandles: Vec<Listed>, blocks: usize) -> Tried
    ensures columns { result.columns ≡ (column_count problem.now.first, column_count problem.now.second) }
    ensures quandles { result.quandles ≡ quandles.items }
    ensures blocks { result.blocks ≡ blocks }
{
    Tried {
        columns: (problem.first.columns(), problem.second.columns()),
        quandles: Items::from_vec(quandles),
        blocks,
    }
}
