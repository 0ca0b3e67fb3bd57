//! A braid: its strands and its letters.
ghost use Rattle.std.specs.Prelude.{◌≡◌, ◌≤◌, ◌⊎◌, None, Some, length, IfOk, IfErr, IsOk};
ghost use Rattle.braid_core.specs.Braid.{IsBraid};
ghost use Rattle.braid_core.specs.Fault.{first_word_fault};
ghost use Rattle.braid_core.specs.declared.fault.BraidFault.TheVariants as fault;

use crate::fault::{BraidFault, first_outside};
use grid_core::MAX_SIZE;
use smallvec::SmallVec;
use std::alloc::Global;
use std::marker::Model;

/// The greatest number of strands: every other place names this constant.
pub const MAX_STRANDS: usize = 8;

/// How many letters a braid holds without taking memory.
pub const INLINE_LETTERS: usize = 16;

/// A braid as a word in the generators of the braid group (Artin 1947), which contracts see as its number of strands and its letters.
///
/// The strands run upward at positions 1 to m from the left, with m from 1 to `MAX_STRANDS`, and the letters go from the lowest crossing to the highest.
/// Letter `+k`, with k from 1 to m-1, is the positive crossing in which strand k+1 passes left under strand k; letter `-k` undoes it.
/// Letters and twice the strands are at most `MAX_SIZE`, so that the closure is a grid.
#[derive(Drop)]
pub struct Braid {
    strands: u8,
    letters: SmallVec<i8, INLINE_LETTERS>,
}

impl Model for Braid {
    ghost use Rattle.braid_core.specs.Braid.{Word, IsBraid};

    ghost Value = { Word };

    ghost view = { λ b. record { strands = b.strands; letters = b.letters.items } };

    ghost invariant = { λ b. IsBraid (record { strands = b.strands; letters = b.letters.items }) };
}

impl Braid {
    /// The braid of these letters, from first to last, or the first reason in the order of `BraidFault` why there is none.
    ///
    /// Takes memory for more than `INLINE_LETTERS` letters only, once nothing else can be refused.
    pub fn new(alloc: Global, strands: u8, letters: &[i8]) -> Result<Braid, BraidFault>
        ensures braid { IfOk result (λ b. (first_word_fault b ≡ None) × (b ≡ record { strands = strands; letters = letters.now })) }
        ensures fault { IfErr result (λ e. (first_word_fault (record { strands = strands; letters = letters.now }) ≡ Some e)
            ⊎ (first_word_fault (record { strands = strands; letters = letters.now }) ≡ None) × (e ≡ fault.OutOfMemory)) }
        ensures inline { first_word_fault (record { strands = strands; letters = letters.now }) ≡ None → length letters.now ≤ INLINE_LETTERS → IsOk result }
    {
        if strands < 1 || strands as usize > MAX_STRANDS {
            return Err(BraidFault::Strands);
        }
        if let Some(place) = first_outside(strands, letters) {
            return Err(BraidFault::Letter { place });
        }
        if letters.len() + 2 * strands as usize > MAX_SIZE {
            return Err(BraidFault::Size);
        }
        let letters = SmallVec::from_slice(alloc, letters)?;
        Ok(Braid { strands, letters })
    }

    /// The number of strands, from 1 to `MAX_STRANDS`.
    pub fn strands(&self) -> u8
        ensures strands { result ≡ self.now.strands }
        ensures braid { IsBraid self.now }
    {
        self.strands
    }

    /// The letters from first to last, each from 1 to m-1 or its negative.
    pub fn letters(&self) -> &[i8]
        ensures letters { result.now ≡ self.now.letters }
        ensures braid { IsBraid self.now }
    {
        self.letters.as_slice()
    }
}
