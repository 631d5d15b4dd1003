//! Room for a line of a table.
ghost use Rattle.std.specs.Prelude.{◌≡◌, length};

use sr_model::NoMemory;
use std::alloc::{AllocError, Global};
use std::marker::Model;

/// Room for the widest line of a table, in one piece of 8,449 bytes: a name of 255 bytes, a space, 8,192 cycles of one byte each, and a line feed.
#[derive(Debug, Drop)]
pub struct RowBuf {
    bytes: Vec<u8>,
}

impl Model for RowBuf {
    ghost use Rattle.std.specs.Prelude.{ℕ, ◌≡◌, List, length};

    ghost Value = { List ℕ };

    ghost view = { λ b. b.bytes.items };

    ghost invariant = { λ b. length b.bytes.items ≡ 8449 };
}

impl RowBuf {
    pub fn new(alloc: Global) -> Result<RowBuf, NoMemory> {
        match vec![in alloc; 0; 8449] {
            Ok(bytes) => Ok(RowBuf { bytes }),
            Err(AllocError) => Err(NoMemory),
        }
    }

    /// All 8,449 bytes, whatever was written to them before.
    pub(crate) fn bytes(&mut self) -> &mut [u8]
        ensures size { length result.now ≡ 8449 }
    {
        self.bytes.as_mut_slice()
    }
}
