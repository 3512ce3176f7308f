//! The table of the double-write area.
ghost use Rattle.std.specs.Prelude.{◌≡◌, ◌≢◌, ◌+◌, ◌*◌, ◌<◌, ◌≤◌, ℕ, length};
ghost use Rattle.shore_types.specs.declared.layout.TheConstants.{MAX_BATCH_PAGES};
ghost use Rattle.shore_dwrite.specs.Tables.{IsTable, cell};

use crate::places::TABLE_BYTES;
use byteorder::{ByteOrder, LittleEndian};

// Writes a number into a cell of four bytes.
fn put_cell(table: &mut [u8], i: usize, number: u32)
    requires { 4 * i + 4 ≤ length table.old }
    ensures here { cell i table.new ≡ number }
    ensures others { (j : ℕ) → j ≢ i → cell j table.new ≡ cell j table.old }
    ensures len { length table.new ≡ length table.old }
{
    LittleEndian::write_u32(&mut table[4 * i..4 * i + 4], number);
}

/// The table of these pages.
pub fn table_of(numbers: &[u32]) -> [u8; TABLE_BYTES]
    requires { length numbers.now ≤ MAX_BATCH_PAGES }
    ensures { IsTable result numbers.now }
{
    let mut table = [0; TABLE_BYTES];
    put_cell(&mut table, 0, numbers.len() as u32);
    for i in 0..numbers.len() {
        put_cell(&mut table, i + 1, numbers[i]);
    }
    table
}
