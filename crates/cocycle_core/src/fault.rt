//! Why a table of numbers is no cocycle.
ghost use Rattle.std.specs.Prelude.{◌≡◌, ◌<◌, ◌*◌, length};
ghost use Rattle.quandle_core.specs.Fault.{or_else};
ghost use Rattle.cocycle_core.specs.Fault.{modulus_fault, cocycle_length_fault, cocycle_range_fault, diagonal_fault, cocycle_law_fault, first_cocycle_fault};
ghost use Rattle.cocycle_core.specs.Fault.{obeys};

use crate::draft::Draft;
use quandle_core::Operations;

/// The first law that a table of numbers breaks, with its lexicographically first case.
#[derive(Clone, Copy, PartialEq, Eq)]
pub enum CocycleFault {
    /// The modulus is 0 or 1.
    Modulus,
    /// The table's length is not the quandle's order squared.
    Length,
    /// `φ(x, y)` is not below the modulus.
    Range { x: u8, y: u8 },
    /// `φ(x, x)` is not 0.
    Diagonal { x: u8 },
    /// `φ(x, y) + φ(x ▷ y, z)` is not `φ(x, z) + φ(x ▷ z, y ▷ z)` mod the modulus.
    Law { x: u8, y: u8, z: u8 },
}

/// The first law that a table of numbers breaks, or None where it is a cocycle.
pub(crate) fn table_fault(
    quandle: Operations<'_>,
    modulus: u8,
    table: &[u8],
) -> Option<CocycleFault>
    ensures { result ≡ first_cocycle_fault (record { quandle = quandle.entry; modulus = modulus; entries = table.now }) }
{
    Draft::new(quandle, modulus, table).first_fault()
}

impl<'a> Draft<'a> {
    /// The first law that the table breaks, or None where it is a cocycle.
    fn first_fault(&self) -> Option<CocycleFault>
        ensures { result ≡ first_cocycle_fault self.now }
    {
        if let Some(fault) = self.shape_fault() {
            return Some(fault);
        }
        if let Some(fault) = self.range_fault() {
            return Some(fault);
        }
        if let Some(fault) = self.diagonal_fault() {
            return Some(fault);
        }
        self.law_fault()
    }

    /// Whether the modulus or the length is wrong.
    fn shape_fault(&self) -> Option<CocycleFault>
        ensures { result ≡ or_else (modulus_fault self.now) (cocycle_length_fault self.now) }
    {
        if self.modulus() < 2 {
            return Some(CocycleFault::Modulus);
        }
        if self.len() != self.order() as usize * self.order() as usize {
            return Some(CocycleFault::Length);
        }
        None
    }

    /// The first number that is not below the modulus.
    fn range_fault(&self) -> Option<CocycleFault>
        requires square { length self.now.entries ≡ self.now.quandle.order * self.now.quandle.order }
        ensures { result ≡ cocycle_range_fault self.now }
    {
        let order = self.order();
        for x in 0..order {
            for y in 0..order {
                if self.entry(x, y) >= self.modulus() {
                    return Some(CocycleFault::Range { x, y });
                }
            }
        }
        None
    }

    /// The first `x` with a `φ(x, x)` other than 0.
    fn diagonal_fault(&self) -> Option<CocycleFault>
        requires square { length self.now.entries ≡ self.now.quandle.order * self.now.quandle.order }
        ensures { result ≡ diagonal_fault self.now }
    {
        let order = self.order();
        for x in 0..order {
            if self.entry(x, x) != 0 {
                return Some(CocycleFault::Diagonal { x });
            }
        }
        None
    }

    /// The first case that breaks the cocycle law.
    fn law_fault(&self) -> Option<CocycleFault>
        requires some { 0 < self.now.modulus }
        requires square { length self.now.entries ≡ self.now.quandle.order * self.now.quandle.order }
        ensures { result ≡ cocycle_law_fault self.now }
    {
        let order = self.order();
        for x in 0..order {
            for y in 0..order {
                for z in 0..order {
                    if !self.obeys(x, y, z) {
                        return Some(CocycleFault::Law { x, y, z });
                    }
                }
            }
        }
        None
    }

    /// Whether `φ(x, y) + φ(x ▷ y, z)` and `φ(x, z) + φ(x ▷ z, y ▷ z)` are equal mod the modulus.
    fn obeys(&self, x: u8, y: u8, z: u8) -> bool
        requires some { 0 < self.now.modulus }
        requires square { length self.now.entries ≡ self.now.quandle.order * self.now.quandle.order }
        requires cases { (x < self.now.quandle.order) × (y < self.now.quandle.order) × (z < self.now.quandle.order) }
        ensures { result ≡ obeys self.now x y z }
    {
        let _order = self.order();
        let one = u16::from(self.entry(x, y));
        let two = u16::from(self.entry(self.over(x, y), z));
        let three = u16::from(self.entry(x, z));
        let four = u16::from(self.entry(self.over(x, z), self.over(y, z)));
        let modulus = u16::from(self.modulus());
        (one + two) % modulus == (three + four) % modulus
    }
}
