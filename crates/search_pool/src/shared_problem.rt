//! The problem of a shared book.
ghost use Rattle.std.specs.Prelude.{◌≡◌};

use std::marker::Brand;

/// Of which problem a shared book is. Of what lies under a lock proofs know only what its type says, so a type stands for the problem:
/// the call that shares a book picks it.
pub trait OfProblem {
    ghost use Rattle.search_book.specs.declared.problem.Problem.{Problem};

    ghost problem: { Problem };
}

impl OfProblem for Brand {
    ghost use Rattle.std.specs.Prelude.{[]};

    ghost problem = { record { first = record { x = []; o = [] }; second = record { x = []; o = [] }; cap = 0; budget = 0 } };
}
