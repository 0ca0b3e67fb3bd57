//! Shadow cocycles, copied.
ghost use Rattle.std.specs.Prelude.{◌≡◌, ◌<◌, ◌*◌, slice_index, IfOk};

use colour_weights::{ShadowCocycle, of_table};
use evidence_core::SpelledShadow;
use std::alloc::{AllocFailed, Global};

/// The same shadow cocycle again, with its spelling.
pub(crate) fn copied(
    alloc: Global,
    shadow: &SpelledShadow,
) -> Result<SpelledShadow, AllocFailed<u8>>
    ensures { IfOk result (λ s. s ≡ shadow.now) }
{
    let cocycle = copy_of(alloc, &shadow.cocycle)?;
    Ok(SpelledShadow {
        spelling: shadow.spelling,
        cocycle,
    })
}

/// The same cocycle again: its values have its laws.
fn copy_of(alloc: Global, cocycle: &ShadowCocycle) -> Result<ShadowCocycle, AllocFailed<u8>>
    ensures { IfOk result (λ c. c ≡ cocycle.now) }
{
    let _modulus = cocycle.modulus();
    let table = values_of(alloc, cocycle)?;
    Ok(of_table(cocycle.quandle(), cocycle.modulus(), table))
}

/// All values of a cocycle, in the order of its table.
fn values_of(alloc: Global, cocycle: &ShadowCocycle) -> Result<Vec<u8>, AllocFailed<u8>>
    ensures { IfOk result (λ v. v.items ≡ cocycle.now.entries) }
{
    let _modulus = cocycle.modulus();
    let order = cocycle.quandle().order() as usize;
    let mut table = Vec::new(alloc);
    for place in 0..order * order * order {
        table.push(value_at(cocycle, place))?;
    }
    Ok(table)
}

/// The value at a place of the table.
fn value_at(cocycle: &ShadowCocycle, place: usize) -> u8
    requires { place < cocycle.now.quandle.order * cocycle.now.quandle.order * cocycle.now.quandle.order }
    ensures { result ≡ slice_index cocycle.now.entries place }
{
    let _modulus = cocycle.modulus();
    let order = cocycle.quandle().order() as usize;
    cocycle.value(
        (place / order / order) as u8,
        (place / order % order) as u8,
        (place % order) as u8,
    )
}
