//! Diagrams on the torus, changed in place. The last column and the last row are neighbours of the first ones there: such a diagram stands
//! for all translates of a grid, and a move that goes round the circle is a move like any other.

use crate::lines::{Lines, Marks, after};
use grid_core::{Corner, Grid, Kind, MAX_SIZE};

/// A diagram on the torus: the marks of its columns, and again those of its rows.
#[derive(Clone, Copy, PartialEq, Eq)]
pub struct Torus {
    size: u8,
    columns: Lines,
    rows: Lines,
}

/// A move that makes no diagram larger.
#[derive(Clone, Copy, PartialEq, Eq)]
pub enum TorusMove {
    /// A column and the next one trade places.
    ExchangeColumns(u8),
    /// A row and the next one trade places.
    ExchangeRows(u8),
    /// A column and the next one, which share a row, become one, and the row is taken out.
    Destabilise(u8),
}

/// Some legal moves of a diagram, a bit for each: all of some kinds.
#[derive(Clone, Copy)]
pub struct TorusMoves {
    columns: u64,
    rows: u64,
    destabilisations: u64,
}

impl TorusMoves {
    /// How many there are.
    pub fn count(&self) -> u32 {
        let exchanges = self
            .columns
            .count_ones()
            .saturating_add(self.rows.count_ones());
        exchanges.saturating_add(self.destabilisations.count_ones())
    }

    /// The one of a number below `count`: the exchanges of columns first, then those of rows, then the destabilisations. Another number
    /// answers a move that need not be legal.
    pub fn at(&self, number: u32) -> TorusMove {
        let columns = self.columns.count_ones();
        let rows = self.rows.count_ones();
        if number < columns {
            return TorusMove::ExchangeColumns(bit_at(self.columns, number));
        }
        let number = number - columns;
        if number < rows {
            return TorusMove::ExchangeRows(bit_at(self.rows, number));
        }
        TorusMove::Destabilise(bit_at(self.destabilisations, number - rows))
    }
}

/// The place of the bit of a number, from 0, among those that are set.
fn bit_at(bits: u64, number: u32) -> u8 {
    let mut rest = bits;
    for _bit in 0..number {
        rest &= rest.wrapping_sub(1);
    }
    (rest.trailing_zeros() % 64) as u8
}

impl Torus {
    /// The diagram on the torus of a grid.
    pub fn of(grid: &Grid) -> Torus {
        let size = grid.size();
        let mut columns = Lines::none();
        for column in 0..size {
            let marks = Marks {
                cross: grid.row_of(Kind::Cross, column),
                ring: grid.row_of(Kind::Ring, column),
            };
            columns.set(column, marks);
        }
        Torus::by_columns(size, columns)
    }

    /// The diagram with these columns.
    pub(crate) fn by_columns(size: u8, columns: Lines) -> Torus {
        let mut torus = Torus {
            size,
            columns,
            rows: Lines::none(),
        };
        for column in 0..size {
            torus.rows.place(columns.marks(column), column);
        }
        torus.columns.close(size);
        torus.rows.close(size);
        torus
    }

    /// The grid with these columns; or None where they are those of none, as an illegal move may leave them.
    pub fn grid(&self) -> Option<Grid> {
        let size = self.size as usize;
        if size > MAX_SIZE {
            return None;
        }
        let mut crosses = [0u8; MAX_SIZE];
        let mut rings = [0u8; MAX_SIZE];
        for column in 0..size {
            let marks = self.columns.marks(column as u8);
            crosses[column] = marks.cross;
            rings[column] = marks.ring;
        }
        Grid::new(&crosses[..size], &rings[..size]).ok()
    }

    /// The number of columns, which is that of the rows.
    pub fn size(&self) -> u8 {
        self.size
    }

    /// The rows of the marks of a column.
    pub(crate) fn marks(&self, column: u8) -> Marks {
        self.columns.marks(column)
    }

    /// The legal exchanges.
    pub fn exchanges(&self) -> TorusMoves {
        TorusMoves {
            columns: self.columns.exchanges(self.size),
            rows: self.rows.exchanges(self.size),
            destabilisations: 0,
        }
    }

    /// The legal destabilisations.
    pub fn destabilisations(&self) -> TorusMoves {
        TorusMoves {
            columns: 0,
            rows: 0,
            destabilisations: self.columns.destabilisations(self.size),
        }
    }

    /// The legal exchanges and destabilisations.
    pub fn moves(&self) -> TorusMoves {
        TorusMoves {
            columns: self.columns.exchanges(self.size),
            rows: self.rows.exchanges(self.size),
            destabilisations: self.columns.destabilisations(self.size),
        }
    }

    /// Makes a legal move, one of those that `moves` answers. Another one may leave columns of no diagram.
    pub fn make(&mut self, torus_move: TorusMove) {
        let size = self.size;
        match torus_move {
            TorusMove::ExchangeColumns(column) => {
                exchange(&mut self.columns, &mut self.rows, column, size);
            }
            TorusMove::ExchangeRows(row) => {
                exchange(&mut self.rows, &mut self.columns, row, size);
            }
            TorusMove::Destabilise(column) => self.destabilise(column),
        }
    }

    /// Takes the row that a column and the next one share out, and makes one column of both.
    fn destabilise(&mut self, column: u8) {
        let size = self.size;
        let next = after(column, size);
        let near = self.marks(column);
        let far = self.marks(next);
        let (row, rest) = if far.cross == near.ring {
            (
                near.ring,
                Marks {
                    cross: near.cross,
                    ring: far.ring,
                },
            )
        } else {
            (
                near.cross,
                Marks {
                    cross: far.cross,
                    ring: near.ring,
                },
            )
        };
        let mut columns = Lines::none();
        for from in 0..size {
            let marks = if from == column {
                rest
            } else {
                self.marks(from)
            };
            let to = if from < next {
                from
            } else {
                from.saturating_sub(1)
            };
            if from != next {
                columns.set(to, marks.without_line(row));
            }
        }
        *self = Torus::by_columns(size.saturating_sub(1), columns);
    }

    /// Puts a block of three marks, the one of the other kind at a corner, in place of the mark of a kind in a column, one below `size`.
    /// Where the diagram has `MAX_SIZE` columns already, it answers false, and changes nothing.
    pub fn stabilise(&mut self, column: u8, kind: Kind, corner: Corner) -> bool {
        let size = self.size;
        if size as usize >= MAX_SIZE {
            return false;
        }
        let old = self.marks(column);
        let row = old.of(kind).wrapping_add(corner.row());
        let old = old.with_line(row);
        let crossed = Marks {
            cross: old.cross,
            ring: row,
        };
        let ringed = Marks {
            cross: row,
            ring: old.ring,
        };
        let is_left = corner.column() == 0;
        let (left, right) = if (kind == Kind::Cross) == is_left {
            (crossed, ringed)
        } else {
            (ringed, crossed)
        };
        let mut columns = self.widened(column, row);
        columns.set(column, left);
        columns.set(column.wrapping_add(1), right);
        *self = Torus::by_columns(size + 1, columns);
        true
    }

    /// The columns where one more row is put in at a place, with room for one more column after the given one.
    fn widened(&self, column: u8, row: u8) -> Lines {
        let mut columns = Lines::none();
        for from in 0..self.size {
            let to = if from <= column { from } else { from + 1 };
            columns.set(to, self.marks(from).with_line(row));
        }
        columns
    }
}

/// Lets a line and the next one trade places. The marks of the lines across them follow.
fn exchange(lines: &mut Lines, across: &mut Lines, line: u8, size: u8) {
    let next = after(line, size);
    let near = lines.marks(line);
    let far = lines.marks(next);
    lines.set(line, far);
    lines.set(next, near);
    lines.close(size);
    across.place(near, next);
    across.place(far, line);
    across.close(size);
}
