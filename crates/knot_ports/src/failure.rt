//! Why a call of a port failed.
/// A call of a source or of a sink failed. It was counted there as a fault.
#[derive(Clone, Copy, Debug, PartialEq, Eq)]
pub struct Failed;
