//! Canonical forms with the shifts that reach them.
ghost use Rattle.std.specs.Prelude.{◌≡◌};
ghost use Rattle.grid_core.specs.Diagram.{Diagram};
ghost use Rattle.grid_keys.specs.Key.{IsKeyOf};

use crate::key::{Packed, grid_of};
use grid_core::Grid;

/// The canonical form of a grid, and the shifts that reach it.
#[derive(Drop)]
pub struct LeastForm {
    /// The least of all translates, by the rows of the Xs and then by those of the Os.
    pub grid: Grid,
    /// The shift of columns, from 0 to n - 1: the least that reaches the form.
    pub columns: u8,
    /// The shift of rows, from 0 to n - 1: the least that reaches the form with this shift of columns.
    pub rows: u8,
}

impl LeastForm {
    /// A copy of the form. Takes no memory.
    pub fn copy(&self) -> Self
        ensures { result ≡ self.now }
    {
        LeastForm {
            grid: self.grid.copy(),
            columns: self.columns,
            rows: self.rows,
        }
    }

    /// The grid that a key names, by no shifts: the form of a canonical grid, found by its key. Some grid must have the key. Takes no memory.
    pub fn named_by(key: Packed) -> LeastForm
        requires { (d : Diagram) × IsKeyOf key d }
        ensures grid { (d : Diagram) → IsKeyOf key d → result.grid ≡ d }
        ensures columns { result.columns ≡ 0 }
        ensures rows { result.rows ≡ 0 }
    {
        LeastForm {
            grid: grid_of(key),
            columns: 0,
            rows: 0,
        }
    }
}

/// The key of the canonical form of a grid, and the shifts that reach it.
#[derive(Clone, Copy, PartialEq, Eq)]
pub struct LeastKey {
    /// The key of the canonical form.
    pub key: Packed,
    /// The shift of columns, as in `LeastForm`.
    pub columns: u8,
    /// The shift of rows, as in `LeastForm`.
    pub rows: u8,
}
