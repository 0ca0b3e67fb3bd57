//! Problems, alone and followed by a verdict.
ghost use Rattle.std.specs.Prelude.{◌≡◌};
ghost use Rattle.text_items.specs.Reading.{Gives};
ghost use Rattle.verdict_text.specs.Problems.{problem_item, problem_of, check_of};

use crate::diagrams::diagram_item;
use crate::verdicts::verdict_item;
use std::alloc::Global;
use text_items::reading::text_end;
use text_items::{TextFault, quandle_list};
use text_lines::Lines;
use verdict_core::{ProblemText, Verdict};

/// The problem that a text states: two diagrams, and any number of quandles. Without a quandle item the built-in list
/// is taken: the trivial one of order 2, the dihedral one of order 3, the tetrahedral one, the dihedral ones of order 5 and 7.
///
/// Otherwise the fault of the first bad line, or `OutOfMemory`.
#[tactic(auto, unfolding(crate::specs::Problems::problem_in))]
pub fn read_problem(alloc: Global, bytes: &[u8]) -> Result<ProblemText, TextFault>
    ensures { Gives (λ p. p) result (problem_of bytes.now) }
{
    let mut lines = Lines::new(bytes);
    let problem = problem_item(alloc, &mut lines)?;
    text_end(&mut lines)?;
    Ok(problem)
}

/// A problem and a verdict on its two diagrams, which follows it. Otherwise the fault of the first bad line, or `OutOfMemory`.
#[tactic(auto, unfolding(crate::specs::Problems::check_in))]
pub fn read_check(alloc: Global, bytes: &[u8]) -> Result<(ProblemText, Verdict), TextFault>
    ensures { Gives (λ p. p) result (check_of bytes.now) }
{
    let mut lines = Lines::new(bytes);
    let problem = problem_item(alloc, &mut lines)?;
    let first = problem.first.columns();
    let second = problem.second.columns();
    let verdict = verdict_item(alloc, first, second, &mut lines)?;
    text_end(&mut lines)?;
    Ok((problem, verdict))
}

/// Two diagrams and any number of quandles, or the built-in list if there are none, from the front of the lines; what follows
/// them is left. Otherwise the fault of the first bad line, or `OutOfMemory`, and nothing is proved of the lines.
#[tactic(auto, unfolding(crate::specs::Problems::problem_item))]
pub fn problem_item(alloc: Global, lines: &mut Lines) -> Result<ProblemText, TextFault>
    ensures { Gives (λ p. (p, lines.new)) result (problem_item lines.old) }
{
    let first = diagram_item(alloc, lines)?;
    let second = diagram_item(alloc, lines)?;
    let quandles = quandle_list(alloc, lines)?;
    Ok(ProblemText {
        first,
        second,
        quandles,
    })
}
