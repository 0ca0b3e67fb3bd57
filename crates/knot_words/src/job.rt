//! The jobs, and how many bytes the input of each may have.
ghost use Rattle.std.specs.Prelude.{◌≡◌, ◌≤◌, IfSome};
ghost use Rattle.knot_ports.specs.declared.limits.TheConstants.{MAX_CERTIFICATE};
ghost use Rattle.knot_words.specs.Limits.{limit_of};

use knot_ports::{MAX_CERTIFICATE, MAX_INPUT};

/// What the program can be asked to do.
#[derive(Clone, Copy, PartialEq, Eq)]
pub enum Job {
    /// Looks for evidence that two diagrams are equal or different.
    Decide,
    /// Simplifies a diagram by moves that never make it larger.
    Simplify,
    /// Finds the least canonical diagram that shifts and exchanges reach from a diagram.
    Least,
    /// Makes a list of moves from a seed, has it checked, and counts colourings at both ends. It reads nothing.
    Sample,
    /// A job that needs no search and takes no option.
    Plain(PlainJob),
}

/// A job that needs no search and takes no option.
#[derive(Clone, Copy, PartialEq, Eq)]
pub enum PlainJob {
    /// Rules on evidence about two diagrams, or on a table of knots.
    Check,
    /// Makes moves on a diagram.
    Replay,
    /// Lists the colourings of a diagram.
    Colour,
    /// Makes the closure of a braid, and lists the fixed points of the braid's action.
    Close,
    /// Writes the crossing code of a diagram.
    Code,
    /// Writes a braid word of a diagram, and lists the fixed points of the word's action.
    Braid,
    /// Compares the linking numbers of two diagrams.
    Linking,
    /// Rules on steps that are to lead from one braid to another.
    Braidcheck,
    /// Compares the weights of the colourings of two diagrams by a cocycle.
    Weights,
    /// Counts the colourings of a diagram, by cocycles those of each weight.
    Numbers,
    /// Draws a grid diagram of a code.
    Grid,
}

impl Job {
    /// The most bytes that an input of the job may have; `sample` has no input.
    pub fn limit(self) -> Option<usize>
        ensures limit { result ≡ limit_of self }
        ensures small { IfSome result (λ limit. limit ≤ MAX_CERTIFICATE) }
    {
        match self {
            Job::Plain(PlainJob::Check) => Some(MAX_CERTIFICATE),
            Job::Sample => None,
            _ => Some(MAX_INPUT),
        }
    }
}
