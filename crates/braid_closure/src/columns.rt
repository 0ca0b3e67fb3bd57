//! The columns of a grid in the making, from left to right.
ghost use Rattle.std.specs.Prelude.{◌≡◌, ◌<◌, ◌≤◌, ◌+◌, [], ◌∷◌, length};
ghost use Rattle.braid_closure.specs.Columns.{begun, ended, open_columns, at_position, ColumnStandsAt};

use arrayvec::ArrayVec;
use grid_core::MAX_SIZE;

/// A column of a grid in the making, which is open until it ends with an O.
#[derive(Clone, Copy, Default)]
pub struct Column {
    /// The row of the X with which it begins, counted from 0.
    pub x: u8,
    /// The row of the O, once it has ended.
    pub o: Option<u8>,
}

/// Columns from left to right.
pub(crate) type Columns = ArrayVec<Column, MAX_SIZE>;

/// Ends the open column of a position, counted from 1 from the left, with an O in this row.
pub(crate) fn end(columns: &mut Columns, position: u8, row: u8)
    requires position { (1 ≤ position) × (position ≤ length (open_columns columns.old.items)) }
    ensures columns { columns.new.items ≡ at_position position (λ c. ended row c ∷ []) columns.old.items }
    ensures count { length (open_columns columns.new.items) + 1 ≡ length (open_columns columns.old.items) }
    ensures size { length columns.new.items ≡ length columns.old.items }
{
    let place = place_of(columns.as_slice(), position);
    let ended = Column {
        x: columns[place].x,
        o: Some(row),
    };
    columns[place] = ended;
}

/// Begins a column in this row, directly to the left of the open column of a position.
pub(crate) fn begin_left(columns: &mut Columns, position: u8, row: u8)
    requires position { (1 ≤ position) × (position ≤ length (open_columns columns.old.items)) }
    requires room { length columns.old.items < MAX_SIZE }
    ensures columns { columns.new.items ≡ at_position position (λ c. begun row ∷ c ∷ []) columns.old.items }
    ensures count { length (open_columns columns.new.items) ≡ length (open_columns columns.old.items) + 1 }
    ensures size { length columns.new.items ≡ length columns.old.items + 1 }
{
    let place = place_of(columns.as_slice(), position);
    columns.insert(place, Column { x: row, o: None });
}

/// Begins a column in this row, directly to the right of the open column of a position.
pub(crate) fn begin_right(columns: &mut Columns, position: u8, row: u8)
    requires position { (1 ≤ position) × (position ≤ length (open_columns columns.old.items)) }
    requires room { length columns.old.items < MAX_SIZE }
    ensures columns { columns.new.items ≡ at_position position (λ c. c ∷ begun row ∷ []) columns.old.items }
    ensures count { length (open_columns columns.new.items) ≡ length (open_columns columns.old.items) + 1 }
    ensures size { length columns.new.items ≡ length columns.old.items + 1 }
{
    let place = place_of(columns.as_slice(), position);
    columns.insert(place + 1, Column { x: row, o: None });
}

/// The place in the list of the open column of a position.
fn place_of(columns: &[Column], position: u8) -> usize
    requires { (1 ≤ position) × (position ≤ length (open_columns columns.now)) }
    ensures inside { result < length columns.now }
    ensures stands { (d : Column) → ColumnStandsAt position result columns.now d }
{
    let mut left = position;
    for place in 0..columns.len() {
        if columns[place].o.is_none() {
            left -= 1;
            if left == 0 {
                return place;
            }
        }
    }
    unreachable!()
}
