//! Two masks over the columns of a diagram, one bit a column: which columns cover a row, and which may trade places with their neighbour on the circle.
//! Each mask has bit c exactly where the plain definition of column c says so, at every number of columns from 0 to 64, and no bit above.
#![tactic(auto)]

mod covering;
mod eight;
mod exchange;
mod laws;
mod mask;
mod sixteen;

pub use covering::covering_mask;
pub use exchange::exchange_mask;
pub use laws::trade_or_interleave;
pub use mask::has_bit;
