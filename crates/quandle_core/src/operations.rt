//! The operations of a quandle, wherever its columns lie.
ghost use Rattle.std.specs.Prelude.{◌≡◌, ◌<◌, ◌≤◌, ◌+◌, ◌*◌, ℕ, length};
ghost use Rattle.quandle_core.specs.declared.operations.TheConstants.{MAX_LARGE_ORDER};
ghost use Rattle.quandle_core.specs.Quandle.{IsQuandle, over, back};
ghost use Rattle.quandle_core.specs.Tables.{table_of};
ghost use Rattle.quandle_core.specs.Columns.{cell_at};

use std::marker::Model;

/// The greatest order of a quandle whose operations are read.
pub const MAX_LARGE_ORDER: usize = 128;

/// Both operations of a finite quandle of order 1 to `MAX_LARGE_ORDER`, which contracts see as its table.
///
/// With it, code that only reads the operations is written once, for quandles of every size.
#[derive(Drop)]
pub struct Operations<'a> {
    order: u8,
    // Both operations by column, the columns so many places apart.
    stride: u8,
    forward: &'a [u8],
    backward: &'a [u8],
}

impl<'a> Model for Operations<'a> {
    ghost use Rattle.std.specs.Prelude.{◌≡◌, ◌<◌, ◌≤◌, ◌+◌, ◌*◌, ℕ, length};
    ghost use Rattle.quandle_core.specs.declared.operations.TheConstants.{MAX_LARGE_ORDER};
    ghost use Rattle.quandle_core.specs.Quandle.{Table, IsQuandle, back};
    ghost use Rattle.quandle_core.specs.Tables.{table_of};
    ghost use Rattle.quandle_core.specs.Columns.{cell_at};

    ghost Value = { Table };

    ghost view = { λ o. table_of o.order (cell_at o.stride o.forward.now) };

    ghost invariant = { λ o. IsQuandle (table_of o.order (cell_at o.stride o.forward.now)) × (o.order ≤ MAX_LARGE_ORDER)
        × ((x y : ℕ) → x < o.order → y < o.order → y * o.stride + x < length o.forward.now)
        × ((x y : ℕ) → x < o.order → y < o.order → y * o.stride + x < length o.backward.now)
        × ((x y : ℕ) → x < o.order → y < o.order → cell_at o.stride o.backward.now x y ≡ back (table_of o.order (cell_at o.stride o.forward.now)) x y) };
}

impl<'a> Operations<'a> {
    /// The operations whose columns lie in two slices.
    pub(crate) fn of_columns(
        order: u8,
        stride: u8,
        forward: &'a [u8],
        backward: &'a [u8],
    ) -> Operations<'a>
        requires laws { IsQuandle (table_of order (cell_at stride forward.now)) }
        requires few { order ≤ MAX_LARGE_ORDER }
        requires forward { (x y : ℕ) → x < order → y < order → y * stride + x < length forward.now }
        requires backward { (x y : ℕ) → x < order → y < order → y * stride + x < length backward.now }
        requires backs { (x y : ℕ) → x < order → y < order → cell_at stride backward.now x y ≡ back (table_of order (cell_at stride forward.now)) x y }
        ensures { result ≡ table_of order (cell_at stride forward.now) }
    {
        Operations {
            order,
            stride,
            forward,
            backward,
        }
    }

    /// The number of colours, from 1 to `MAX_LARGE_ORDER`.
    pub fn order(&self) -> u8
        ensures order { result ≡ self.now.order }
        ensures few { result ≤ MAX_LARGE_ORDER }
        ensures quandle { IsQuandle self.now }
    {
        self.order
    }

    /// `x ▷ y`, for colours x and y below the order.
    pub fn over(&self, x: u8, y: u8) -> u8
        requires { (x < self.now.order) × (y < self.now.order) }
        ensures { result ≡ over self.now x y }
    {
        self.forward[y as usize * self.stride as usize + x as usize]
    }

    /// `x ◁ y`, the colour `z` with `z ▷ y = x`, for colours x and y below the order.
    pub fn back(&self, x: u8, y: u8) -> u8
        requires { (x < self.now.order) × (y < self.now.order) }
        ensures { result ≡ back self.now x y }
    {
        self.backward[y as usize * self.stride as usize + x as usize]
    }
}
