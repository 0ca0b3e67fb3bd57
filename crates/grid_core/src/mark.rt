//! The two kinds of marks, and the corners of a block of four cells.
ghost use Rattle.std.specs.Prelude.{◌≡◌};
ghost use Rattle.grid_core.specs.Diagram.{other};
ghost use Rattle.grid_core.specs.Corners.{corner_column, corner_row};

/// The kind of a mark: X (`Cross`) or O (`Ring`).
#[derive(Clone, Copy, PartialEq, Eq)]
pub enum Kind {
    Cross,
    Ring,
}

impl Kind {
    /// The other kind.
    pub fn other(self) -> Kind
        ensures { result ≡ other self }
    {
        match self {
            Kind::Cross => Kind::Ring,
            Kind::Ring => Kind::Cross,
        }
    }
}

/// A corner of a block of two columns and two rows.
/// As (column, row) in the block these are (0, 0), (1, 0), (0, 1) and (1, 1).
#[derive(Clone, Copy, PartialEq, Eq)]
pub enum Corner {
    LowLeft,
    LowRight,
    HighLeft,
    HighRight,
}

impl Corner {
    /// The four corners, in the order in which moves are listed.
    pub const ALL: [Corner; 4] = [
        Corner::LowLeft,
        Corner::LowRight,
        Corner::HighLeft,
        Corner::HighRight,
    ];

    /// The corner's column in the block: 0 on the left, 1 on the right.
    pub fn column(self) -> u8
        ensures { result ≡ corner_column self }
    {
        match self {
            Corner::LowLeft => 0,
            Corner::LowRight => 1,
            Corner::HighLeft => 0,
            Corner::HighRight => 1,
        }
    }

    /// The corner's row in the block: 0 below, 1 above.
    pub fn row(self) -> u8
        ensures { result ≡ corner_row self }
    {
        match self {
            Corner::LowLeft => 0,
            Corner::LowRight => 0,
            Corner::HighLeft => 1,
            Corner::HighRight => 1,
        }
    }
}
