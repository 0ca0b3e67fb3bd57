//! The shape of each job's input.
ghost use Rattle.std.specs.Prelude.{◌≡◌, ◌⊎◌, IsNone};

use knot_words::{Job, PlainJob};
use seek_faults::{PROBLEM, Part, Shape, Then};

/// A diagram alone.
const DIAGRAM: Shape = Shape {
    are_two: false,
    are_braids: false,
    then: Then::Nothing,
};

/// What the input of a job is made of; None where it has none, and for a code.
pub(crate) fn shape_of(job: Job) -> Option<Shape>
    ensures none { IsNone result → (job ≡ Job.Sample) ⊎ (job ≡ Job.Plain PlainJob.Grid) }
{
    match job {
        Job::Decide => Some(PROBLEM),
        Job::Simplify | Job::Least => Some(DIAGRAM),
        Job::Sample => None,
        Job::Plain(job) => plain_shape_of(job),
    }
}

/// What the input of a plain job is made of; None for a code.
fn plain_shape_of(job: PlainJob) -> Option<Shape>
    ensures none { IsNone result → job ≡ PlainJob.Grid }
{
    let (are_two, are_braids, then) = match job {
        PlainJob::Check => (true, false, Then::QuandlesAnd(Part::Verdict)),
        PlainJob::Replay => (false, false, Then::Only(Part::Moves)),
        PlainJob::Colour | PlainJob::Braid => (false, false, Then::Quandles),
        PlainJob::Close => (false, true, Then::Quandles),
        PlainJob::Code => return Some(DIAGRAM),
        PlainJob::Linking => (true, false, Then::Nothing),
        PlainJob::Braidcheck => (true, true, Then::Only(Part::Steps)),
        PlainJob::Weights => (true, false, Then::QuandleAnd(Part::Cocycle)),
        PlainJob::Numbers => (false, false, Then::QuandlesAnd(Part::LargeCocycle)),
        PlainJob::Grid => return None,
    };
    Some(Shape {
        are_two,
        are_braids,
        then,
    })
}
