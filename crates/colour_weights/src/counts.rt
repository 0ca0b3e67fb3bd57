//! Counts by weight.
ghost use Rattle.std.specs.Prelude.{◌≡◌, ◌<◌, ◌+◌, ◌-◌, ◌^◌, map, length, slice_index, slice_set, IfOk};
ghost use Rattle.std.specs.List.{range_with_len};

use std::alloc::{AllocFailed, Global};

/// Adds one to the count of a weight.
pub fn count_one(counts: &mut [u32], weight: u8)
    requires inside { weight < length counts.old }
    requires room { slice_index counts.old weight < 2 ^ 32 - 1 }
    ensures { counts.new ≡ slice_set counts.old weight (slice_index counts.old weight + 1) }
{
    counts[weight as usize] += 1;
}

/// Counts of 0 for the weights below the modulus.
pub fn zeros(alloc: Global, modulus: u8) -> Result<Vec<u32>, AllocFailed<u32>>
    ensures { IfOk result (λ v. v.items ≡ map (λ v. 0) (range_with_len 0 modulus)) }
{
    let mut counts = Vec::new(alloc);
    for _count in 0..modulus {
        counts.push(0)?;
    }
    Ok(counts)
}
