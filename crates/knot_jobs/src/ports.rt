//! What a call may change.

use search_pool::Finding;

/// Where a call reads its input, where it writes its answer, and where it leaves a search and the input.
#[derive(Drop)]
pub struct Ports<S, K> {
    pub source: S,
    pub sink: K,
    pub kept: Option<Finding>,
    /// The bytes that the last call answered, so that a bad line of them can be reported. Nothing is proved of them.
    pub input: Vec<u8>,
}
