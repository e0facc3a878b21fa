//! The answer of calls that want memory.

/// Memory was wanting. The object that was called is as it was, but that its reserve may have grown.
#[derive(Clone, Copy, Debug, PartialEq, Eq)]
pub struct OutOfMemory;
