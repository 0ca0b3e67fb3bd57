//! Moves in place, and names, beside the moves and the keys of grids.
mod plain;
mod twin;
