//! The steps and their faults.

/// A step from a braid of m strands and l letters to another: a relation of Artin (1947), a conjugation, or a move of Markov (1936).
///
/// Letters are counted from 0 and run from the lowest crossing to the highest. `apply_braid` refuses a step that is not legal.
#[derive(Clone, Copy, PartialEq, Eq)]
pub enum BraidMove {
    /// Letters p and p + 1, whose absolute values differ by 2 or more, trade places (Artin 1947).
    Far(u8),
    /// Letters p to p + 2 are a, b, a of one sign, with absolute values that differ by 1, and become b, a, b (Artin 1947).
    Triple(u8),
    /// Letters p and p + 1 are a letter and its negative, and both go.
    Cancel(u8),
    /// This letter, from 1 to m - 1 or the negative of such a number, and then its negative are put before the old letter `place`, or at the end
    /// if `place` is l.
    Insert { place: u8, letter: i8 },
    /// The first k letters, with k from 1 to l - 1, go to the end in order: a conjugation.
    Turn(u8),
    /// One strand more, and a last letter, m where it is positive and else -m (Markov 1936).
    Grow { positive: bool },
    /// The last letter, m - 1 or its negative, which no other letter has as its absolute value, goes with a strand; m is 2 or more (Markov 1936).
    Shrink,
}

/// Why a step is not legal on a braid of m strands and l letters: the first of these that holds.
#[derive(Clone, Copy, PartialEq, Eq)]
pub enum BraidMoveFault {
    /// A letter p, p + 1 or p + 2 that is not there, a place after the end, an inserted letter that is 0 or whose absolute value is not below m, or a
    /// turn by 0 or by l or more.
    Range,
    /// The letters or the strands are not as `Far`, `Triple`, `Cancel` or `Shrink` requires.
    Shape,
    /// After `Insert` or `Grow` the braid would have more than `MAX_STRANDS` strands, or letters and twice the strands over `MAX_SIZE`, so that its
    /// closure has no room.
    Full,
    /// Memory ran out.
    OutOfMemory,
}
