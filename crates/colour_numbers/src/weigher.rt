//! What weighs lists of colours.
ghost use Rattle.std.specs.Prelude.{◌≡◌, ◌<◌, ◌≤◌, ◌+◌, ◌^◌, ◌∷◌, [], ℕ, List, length, slice_index};
ghost use Rattle.grid_core.specs.declared.grid.TheConstants.{MAX_SIZE};
ghost use Rattle.quandle_core.specs.Quandle.{Table};
ghost use Rattle.colour_rows.specs.Colouring.{AreColours};
ghost use Rattle.colour_numbers.specs.Tallies.{tallied};

use colour_seeds::settling::SettledColours;
use quandle_core::Operations;

/// Counts lists of colours by weight.
pub trait Weigher {
    /// The quandle whose colours are weighed.
    ghost quandle: { Self → Table };

    /// Weights are below it.
    ghost modulus: { Self → ℕ };

    /// The most times that a list is counted: once for each colour that is chosen beside it.
    ghost choices: { Self → ℕ };

    /// How often a list of colours has a weight.
    ghost often: { Self → ℕ → List ℕ → ℕ };

    /// The operations of the quandle.
    fn quandle(&self) -> &Operations<'_>
        ensures { result.now ≡ quandle self.now };

    /// The modulus of the weights.
    fn modulus(&self) -> u8
        ensures { result ≡ modulus self.now };

    /// Adds a list of colours to the counts by weight.
    fn add(&self, colours: &SettledColours, counts: &mut [u32])
        requires colours { AreColours MAX_SIZE (quandle self.now).order colours.now }
        requires long { length counts.old ≡ modulus self.now }
        requires room { (v : ℕ) → v < modulus self.now → slice_index counts.old v + choices self.now < 2 ^ 32 }
        ensures { counts.new ≡ tallied (modulus self.now) (often self.now) counts.old (colours.now ∷ []) };

    /// A list is counted once for each choice at most.
    ghost few: { (w : Self) (v : ℕ) (f : List ℕ) → often w v f ≤ choices w };
}
