// The numbers of the format, and how many bytes a cell takes.
ghost use Rattle.std.specs.Prelude.{◌≡◌, length};
ghost use Rattle.data_files.specs.Cells.{spelled_cell, FitsCell};

use cell_merge::Cell;

/// What a file begins with.
pub const MAGIC: [u8; 8] = *b"ACMDAT01";

/// How many bytes the magic and the two numbers behind it take.
pub const HEAD: u64 = 24;

/// How many cells a block has; the last one may have fewer.
pub const BLOCK: usize = 64;

/// No cell's time reaches this one.
pub const END_OF_TIME: u64 = 1 << 63;

/// How many bytes a cell is spelled with.
pub fn cell_size(cell: &Cell) -> u64
    requires { FitsCell cell.now }
    ensures { result ≡ length (spelled_cell cell.now) }
{
    let key = 4
        + cell.key.row.as_bytes().len()
        + cell.key.family.as_bytes().len()
        + cell.key.qualifier.as_bytes().len();
    let value = match &cell.value {
        Some(value) => 3 + value.as_bytes().len(),
        None => 1,
    };
    (key + 8 + value) as u64
}
