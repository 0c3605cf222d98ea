//! The marks of a definition's pair.

/// The definition is ready.
pub const READY: u8 = 0;
/// The index that the definition made is being filled.
pub const BUILDING: u8 = 1;
