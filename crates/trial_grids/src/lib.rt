//! Tests of grid_moves, meeting_walks and torus_grids.
#![tactic(auto)]

#[cfg(test)]
mod tests;
