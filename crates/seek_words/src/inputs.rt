//! How often standard input is read.
ghost use Rattle.std.specs.Prelude.{◌≡◌, ◌≤◌, ◌<◌, ◌+◌, ◌↔◌, min, ◌-◌, ◌^◌, count_by, if◌then◌else◌, true, IsTrue};
ghost use Rattle.seek_words.specs.Words.{is_input, is_input_given, diagram_inputs, inputs_read};

use crate::asked::Asked;
use crate::given::{Diagrams, Given};

impl<'a> Asked<'a> {
    /// Whether standard input is read.
    pub fn reads_input(&self) -> bool
        ensures { IsTrue result ↔ (0 < inputs_read self.now) }
    {
        inputs_of(self) > 0
    }
}

/// Whether standard input is read for one of the files at most.
pub(crate) fn reads_input_once(asked: &Asked) -> bool
    ensures { IsTrue result ↔ (inputs_read asked.now ≤ 1) }
{
    inputs_of(asked) <= 1
}

/// How many of the files that are read are standard input; `usize::MAX` where they are more.
fn inputs_of(asked: &Asked) -> usize
    ensures { result ≡ min (inputs_read asked.now) (2 ^ 64 - 1) }
{
    let lists = inputs_among(asked.quandles.as_slice()).saturating_add(inputs_among(
        asked.weights.as_slice(),
    ));
    inputs_given(asked.diagrams).saturating_add(lists)
}

/// How many of these files are standard input.
fn inputs_among(paths: &[&str]) -> usize
    ensures { result ≡ count_by (λ path. is_input path.now) paths.now }
{
    paths.iter().filter(|path| **path == "-").count()
}

/// How many of the diagrams are read from standard input, of which a problem is one.
fn inputs_given(diagrams: Diagrams) -> usize
    ensures { result ≡ diagram_inputs diagrams.entry }
{
    match diagrams {
        Diagrams::Problem(one) => input_given(one),
        Diagrams::Pair(first, second) => input_given(first) + input_given(second),
    }
}

/// 1 where a diagram is read from standard input, and else 0.
fn input_given(given: Given) -> usize
    ensures { result ≡ (if is_input_given given.entry then 1 else 0) }
{
    match given {
        Given::File(path) | Given::Code(path) if path == "-" => 1,
        Given::File(_) | Given::Code(_) | Given::Braid(_) => 0,
    }
}
