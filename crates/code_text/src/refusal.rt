//! Why no diagram of the text of a code is answered.

use code_rows::RowsFault;

/// Why no diagram of the text of a code is answered. `Columns` and `Lost` say what was tried: that another drawing would do no better isn't
/// proved.
#[derive(Clone, Copy, PartialEq, Eq)]
pub enum TextRefusal {
    /// The rows have this fault.
    Rows(RowsFault),
    /// The rows have no fault, and the signed Gauss lines are not theirs, whatever the signs.
    Gauss,
    /// The drawing needs this many columns, which are more than a grid may have; another may need fewer. Of the number it is proved
    /// only that it is over `MAX_SIZE`.
    Columns {
        /// How many.
        columns: usize,
    },
    /// The drawing is no grid diagram of the code.
    Lost,
}
