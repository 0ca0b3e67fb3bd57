//! Tidy lists of moves.
ghost use Rattle.std.specs.Prelude.{◌≡◌};
ghost use Rattle.grid_moves.specs.Kinds.{is_shift, is_column_shift, is_row_shift};
ghost use Rattle.grid_moves.specs.Tidy.{may_follow, is_tidy};

use crate::step::Move;

/// Whether a list of moves is tidy: no shift of columns follows directly on a shift, and no shift of rows directly on one of rows.
/// Takes no memory.
pub fn is_tidy(steps: &[Move]) -> bool
    ensures { result ≡ is_tidy steps.now }
{
    let mut before = None;
    for step in steps {
        if !may_follow(before, *step) {
            return false;
        }
        before = Some(*step);
    }
    true
}

/// Whether a move may directly follow another in a tidy list, or, where there is none before it, be the first.
pub fn may_follow(before: Option<Move>, step: Move) -> bool
    ensures { result ≡ may_follow before step }
{
    match before {
        None => true,
        Some(last) => {
            !((is_column_shift(step) && is_shift(last))
                || (is_row_shift(step) && is_row_shift(last)))
        }
    }
}

fn is_shift(step: Move) -> bool
    ensures { result ≡ is_shift step }
{
    matches!(step, Move::ShiftColumns(_) | Move::ShiftRows(_))
}

fn is_column_shift(step: Move) -> bool
    ensures { result ≡ is_column_shift step }
{
    matches!(step, Move::ShiftColumns(_))
}

fn is_row_shift(step: Move) -> bool
    ensures { result ≡ is_row_shift step }
{
    matches!(step, Move::ShiftRows(_))
}
