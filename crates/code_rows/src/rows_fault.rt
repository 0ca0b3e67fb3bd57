//! Why rows are no code of a diagram in the plane.
ghost use Rattle.std.specs.Prelude.{◌≡◌, ◌==◌, ◌≤◌, length, count_by, if◌then◌else◌};
ghost use Rattle.code_rows.specs.Rows.{all_names};
ghost use Rattle.code_rows.specs.RowsFault.{ends_of, lesser, least_unpaired, unpaired};

use crate::row::CodeRow;

/// Why rows are no code of a diagram in the plane: the first of these that holds. Edges are given by their names.
#[derive(Clone, Copy, PartialEq, Eq)]
pub enum RowsFault {
    /// There is no row and no loop.
    Empty,
    /// This name is the least that doesn't occur exactly twice.
    Edge { edge: u32 },
    /// Whatever the signs, strands run against each other on some edge; this is the least edge such that no signs fit all edges up to it.
    Direction { edge: u32 },
    /// Strands have directions, but the faces are not as many as the crossings and twice the connected parts.
    Plane,
}

/// The fault that rows have before their strands are directed, if they have one.
pub(crate) fn unpaired(rows: &[CodeRow], names: &[u32], loops: u32) -> Option<RowsFault>
    requires { names.now ≡ all_names rows.now }
    ensures { result ≡ unpaired rows.now loops }
{
    if rows.is_empty() && loops == 0 {
        return Some(RowsFault::Empty);
    }
    match least_unpaired(names) {
        Some(edge) => Some(RowsFault::Edge { edge }),
        None => None,
    }
}

/// The least name that is at other than two ends.
pub(crate) fn least_unpaired(names: &[u32]) -> Option<u32>
    ensures { result ≡ least_unpaired names.now }
{
    let mut least = None;
    for name in names {
        least = after_name(names, least, *name);
    }
    least
}

/// The least so far, when one name more was seen.
fn after_name(names: &[u32], least: Option<u32>, name: u32) -> Option<u32>
    ensures { result ≡ (if ends_of names.now name == 2 then least else lesser least name) }
{
    if ends_of(names, name) == 2 {
        return least;
    }
    match least {
        None => Some(name),
        Some(least) => Some(least.min(name)),
    }
}

/// At how many ends a name is.
pub(crate) fn ends_of(names: &[u32], name: u32) -> usize
    ensures { result ≡ ends_of names.now name }
{
    names.iter().filter(|other| **other == name).count()
}
