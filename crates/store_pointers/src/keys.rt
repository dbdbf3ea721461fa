// A cell's key: its cell numbers plus 1, each so many times, added up modulo 2^32. Tags don't count, nor does an absent pointer, and no mirror changes it.
ghost use Rattle.std.specs.Prelude.{◌≡◌, ◌*◌, ◌/◌, ◌%◌, ◌^◌};
ghost use Rattle.paper.specs.Store.{key_factor, key_of};

use crate::pointers::TAG_STEP;

// How many times a number counts, and the modulus.
const FACTOR: u64 = 2654435761;

const MODULUS: u64 = 4294967296;

// A key's top byte counts so many times: 2^24.
const TOP_BYTE: u32 = 16777216;

// A number so many times, modulo 2^32.
fn wrapping_times(n: u32) -> u32
    ensures { result ≡ n * key_factor % 2 ^ 32 }
{
    (u64::from(n) * FACTOR % MODULUS) as u32
}

// The key of a cell.
pub fn cell_key(cell: [u32; 8]) -> u32
    ensures { result ≡ key_of cell }
{
    let mut key = 0u32;
    for p in cell {
        key = key.wrapping_add(wrapping_times(p % TAG_STEP));
    }
    key
}

// The chain of a cell: its key's top byte.
pub fn cell_chain(cell: [u32; 8]) -> u32
    ensures { result ≡ key_of cell / 2 ^ 24 }
{
    cell_key(cell) / TOP_BYTE
}
