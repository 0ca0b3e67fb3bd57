//! How many bytes an input may have.

/// The most bytes that an input of the programs may have, but for a certificate.
pub const MAX_INPUT: usize = 1_048_576;
/// The most bytes that a certificate may have: a problem followed by a verdict with its evidence.
pub const MAX_CERTIFICATE: usize = 33_554_432;
