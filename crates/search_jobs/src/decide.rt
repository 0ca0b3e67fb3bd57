//! The job `decide`: the verdict on two diagrams.
ghost use Rattle.std.specs.Prelude.{◌≡◌, ℕ, List, Ok, IfOk};
ghost use Rattle.verdict_core.specs.Diagrams.{grid_of};
ghost use Rattle.verdict_core.specs.Evidence.{Claims, VerdictHolds, HasEvidence, IsTidyVerdict};
ghost use Rattle.pair_verdict.specs.Decided.{Decides};
ghost use Rattle.verdict_text.specs.Problems.{problem_of};
ghost use Rattle.knot_words.specs.Words.{IsWithinBounds};
ghost use Rattle.search_jobs.specs.Reply.{RepliesRead};
ghost use Rattle.search_jobs.specs.Decide.{problem_for, verdict_status, AnswersDecide, IsDecisionIfDone};

use crate::laws::a_decision_has_a_text;
use crate::reply::Reply;
use grid_core::MAX_SIZE;
use knot_ports::Status;
use knot_text::{ProblemText, Verdict, print_verdict, read_problem};
use knot_words::Asked;
use memory_core::{Items, OutOfMemory};
use pair_verdict::{Decision, decide, decide_alone};
use search_book::Problem;
use search_pool::Gate;
use std::alloc::{AllocError, Global};
use std::sync::Wait;
use std::thread::Threads;

/// The reply to the bytes of a problem, found by as many workers as are asked for, which pass the gate between a claim and its
/// settlement. A first bad line is named by the reply, and a text with `Done` is a decision on the problem. The error comes where there
/// is no memory.
pub fn answer<R: Threads + Wait + Sync, G: Gate + Sync>(
    rt: &R,
    alloc: Global,
    asked: &Asked,
    bytes: &[u8],
    gate: &G,
) -> Result<Reply, AllocError>
    requires bounds { IsWithinBounds asked.now }
    ensures answer { IfOk result (λ reply. RepliesRead (AnswersDecide asked.now) (problem_of bytes.now) reply) }
    ensures claim { IfOk result (λ reply. IsDecisionIfDone bytes.now reply) }
{
    match read_problem(alloc, bytes) {
        Ok(input) => {
            let problem = problem_for(asked, &input);
            let quandles = input.quandles.as_slice();
            let decision = decide(rt, alloc, problem, quandles, asked.workers, gate);
            answer_decision(alloc, asked, &input, decision)
        }
        Err(fault) => Reply::to_fault(alloc, fault),
    }
}

/// The reply to the bytes of a problem, as `answer` gives it, by the one worker that is asked for, in the calling thread. It passes no gate.
pub fn answer_alone(alloc: Global, asked: &Asked, bytes: &[u8]) -> Result<Reply, AllocError>
    requires bounds { IsWithinBounds asked.now }
    requires one { asked.now.workers ≡ 1 }
    ensures answer { IfOk result (λ reply. RepliesRead (AnswersDecide asked.now) (problem_of bytes.now) reply) }
    ensures claim { IfOk result (λ reply. IsDecisionIfDone bytes.now reply) }
{
    match read_problem(alloc, bytes) {
        Ok(input) => {
            let problem = problem_for(asked, &input);
            let decision = decide_alone(alloc, problem, input.quandles.as_slice());
            answer_decision(alloc, asked, &input, decision)
        }
        Err(fault) => Reply::to_fault(alloc, fault),
    }
}

/// The answer to a problem with the decision on it, from whatever bytes the problem was read.
fn answer_decision(
    alloc: Global,
    asked: &Asked,
    input: &ProblemText,
    decision: Result<Decision, OutOfMemory>,
) -> Result<Reply, AllocError>
    requires decides { IfOk decision (λ d. Decides (problem_for asked.now (grid_of input.now.first) (grid_of input.now.second))
        input.now.quandles asked.now.workers d.verdict d.kept) }
    requires claims { IfOk decision (λ d. Claims (grid_of input.now.first) (grid_of input.now.second) d.verdict) }
    requires holds { IfOk decision (λ d. HasEvidence d.verdict → VerdictHolds (grid_of input.now.first) (grid_of input.now.second) d.verdict) }
    requires tidy { IfOk decision (λ d. IsTidyVerdict d.verdict) }
    ensures answer { IfOk result (λ reply. AnswersDecide asked.now input.now reply) }
    ensures claim { (bytes : List ℕ) → problem_of bytes ≡ Ok input.now → IfOk result (λ reply. IsDecisionIfDone bytes reply) }
{
    a_decision_has_a_text();
    let Ok(decision) = decision else {
        return Err(AllocError);
    };
    let Ok(text) = print_verdict(alloc, &decision.verdict) else {
        return Err(AllocError);
    };
    Ok(reply_of(decision, text))
}

/// The reply with the text of a decision and its search.
fn reply_of(decision: Decision, text: Vec<u8>) -> Reply
    ensures { result ≡ record { status = verdict_status decision.verdict; text = text.items; kept = decision.kept } }
{
    Reply {
        status: verdict_status(&decision.verdict),
        text: Items::from_vec(text),
        kept: decision.kept,
    }
}

/// What is searched where no quandle distinguishes the grids.
fn problem_for(asked: &Asked, input: &ProblemText) -> Problem
    requires bounds { IsWithinBounds asked.now }
    ensures { result ≡ problem_for asked.now (grid_of input.now.first) (grid_of input.now.second) }
{
    let first = input.first.grid();
    let second = input.second.grid();
    let larger = first.size().max(second.size());
    Problem {
        cap: (larger + asked.spare).min(MAX_SIZE as u8),
        budget: asked.budget,
        first,
        second,
    }
}

/// The status that goes with a verdict.
fn verdict_status(verdict: &Verdict) -> Status
    ensures { result ≡ verdict_status verdict.now }
{
    match verdict {
        Verdict::Equal(_) | Verdict::Different { .. } => Status::Done,
        Verdict::UnknownBudget { .. } | Verdict::UnknownExhausted { .. } => Status::Unknown,
    }
}
