//! The words of the first two lines of a dump.

/// The format.
pub(crate) const FORMAT: &[u8] = b"srdump";

/// Its version.
pub(crate) const VERSION: &[u8] = b"1";

/// What stands before the number of cycles in its line.
pub(crate) const CYCLES: &[u8] = b"cycles";

/// Both lines up to the number of cycles, as they are printed.
pub const HEAD_START: &[u8] = b"srdump 1\ncycles ";
