//! Why two lists of rows are no grid.
ghost use Rattle.std.specs.Prelude.{◌≡◌, ◌<◌, ◌≤◌, ◌||◌, ◌==◌, length, nat_lt, slice_index};
ghost use Rattle.std.specs.List.{list_all, list_any};
ghost use Rattle.grid_core.specs.Fault.{lowest, is_outside, is_repeated};

/// Why two lists `x` and `o` of rows by column are no grid: the first of these that holds, at its lowest column.
#[derive(Clone, Copy, PartialEq, Eq)]
pub enum GridFault {
    /// The length of `x` is below 2 or above `MAX_SIZE`.
    Size,
    /// The length of `o` is not that of `x`.
    Length,
    /// A row of this column is not below the length of `x`.
    Range { column: u8 },
    /// The X of this column is in the row of an earlier X, or its O in the row of an earlier O.
    Repeat { column: u8 },
    /// Both marks of this column are in one cell.
    Same { column: u8 },
}

/// The lowest column with a row outside.
pub(crate) fn lowest_outside(x: &[u8], o: &[u8]) -> Option<u8>
    requires most { length x.now ≤ 255 }
    requires same { length o.now ≡ length x.now }
    ensures { result ≡ lowest (λ c. is_outside x.now o.now c) (length x.now) }
{
    for c in 0..x.len() as u8 {
        if is_outside(x, o, c) {
            return Some(c);
        }
    }
    None
}

/// The lowest column with a row that occurs in an earlier column, for the same kind.
pub(crate) fn lowest_repeated(x: &[u8], o: &[u8]) -> Option<u8>
    requires most { length x.now ≤ 255 }
    requires same { length o.now ≡ length x.now }
    ensures { result ≡ lowest (λ c. is_repeated x.now c || is_repeated o.now c) (length x.now) }
{
    for c in 0..x.len() as u8 {
        if is_repeated_in(x, o, c) {
            return Some(c);
        }
    }
    None
}

/// The lowest column with both marks in one cell.
pub(crate) fn lowest_same(x: &[u8], o: &[u8]) -> Option<u8>
    requires most { length x.now ≤ 255 }
    requires same { length o.now ≡ length x.now }
    ensures { result ≡ lowest (λ c. slice_index x.now c == slice_index o.now c) (length x.now) }
{
    for c in 0..x.len() as u8 {
        if x[c as usize] == o[c as usize] {
            return Some(c);
        }
    }
    None
}

/// Whether a row of a column lies outside.
fn is_outside(x: &[u8], o: &[u8], c: u8) -> bool
    requires inside { c < length x.now }
    requires same { length o.now ≡ length x.now }
    ensures { result ≡ is_outside x.now o.now c }
{
    x.len() <= usize::from(x[c as usize]) || x.len() <= usize::from(o[c as usize])
}

/// Whether a row of a column occurs in an earlier column, for the same kind.
fn is_repeated_in(x: &[u8], o: &[u8], c: u8) -> bool
    requires inside { c < length x.now }
    requires same { length o.now ≡ length x.now }
    ensures { result ≡ (is_repeated x.now c || is_repeated o.now c) }
{
    is_repeated(x, c as usize) || is_repeated(o, c as usize)
}

/// Whether the row of a column occurs in an earlier column.
pub fn is_repeated(rows: &[u8], c: usize) -> bool
    requires { c < length rows.now }
    ensures { result ≡ is_repeated rows.now c }
{
    let (front, _) = rows.split_at(c);
    has_row(front, rows[c])
}

/// Whether each number is below a bound.
pub fn all_below(numbers: &[u8], bound: u8) -> bool
    ensures { result ≡ list_all (λ v. nat_lt v bound) numbers.now }
{
    numbers.iter().all(|number| *number < bound)
}

/// Whether a row is in the list.
fn has_row(rows: &[u8], row: u8) -> bool
    ensures { result ≡ list_any (λ r. r == row) rows.now }
{
    rows.iter().any(|r| *r == row)
}
