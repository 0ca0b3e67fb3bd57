// The sizes, and the set of those that are held, as a mask with one bit a size.

ghost use Rattle.std.specs.Prelude.{◌≡◌, ◌≢◌, ℕ, ◌<◌, if◌then◌else◌};
ghost use Rattle.std.specs.Int.{bit_at};

/// How many sizes there are: from 0 to 64.
pub const SIZES: usize = 65;

/// The mask with one size more.
pub fn with_size(mask: u128, size: u8) -> u128
    requires { size < 128 }
    ensures set { bit_at result size ≡ 1 }
    ensures others { (s : ℕ) → s ≢ size → bit_at result s ≡ bit_at mask s }
{
    mask | 1 << size
}

/// The mask without the size.
pub fn without_size(mask: u128, size: u8) -> u128
    requires { size < 128 }
    ensures cleared { bit_at result size ≡ 0 }
    ensures others { (s : ℕ) → s < 128 → s ≢ size → bit_at result s ≡ bit_at mask s }
{
    mask & !(1 << size)
}

/// The least size in the mask, which is not empty.
pub fn least_size(mask: u128) -> u8
    requires { 0 < mask }
    ensures set { bit_at mask result ≡ 1 }
    ensures in_mask { result < 128 }
    ensures least { (s : ℕ) → s < result → bit_at mask s ≡ 0 }
{
    mask.trailing_zeros() as u8
}

/// The mask as it is, or without the size.
pub fn kept_size(mask: u128, size: u8, stays: bool) -> u128
    requires range { size < 128 }
    requires held { bit_at mask size ≡ 1 }
    ensures this { bit_at result size ≡ (if stays then 1 else 0) }
    ensures others { (s : ℕ) → s < 128 → s ≢ size → bit_at result s ≡ bit_at mask s }
{
    if stays {
        mask
    } else {
        without_size(mask, size)
    }
}
