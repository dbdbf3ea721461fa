// Pointers: 0 names nothing; any other has a tag on top and below it the number of a kept cell, counted from 1.
ghost use Rattle.std.specs.Prelude.{◌≡◌, ◌+◌, ◌^◌, ◌<◌, not, ◌==◌, nat_eq, slice_index};
ghost use Rattle.paper.specs.Numbers.{all_below};
ghost use Rattle.paper.specs.Store.{tag_of, low_of, cell_no, pointer as pointer-to, bad_pointer, any_bad, cell_usable};

// The lowest bit of the mirror: 2^29.
pub const TAG_STEP: u32 = 536870912;

// The mirror of a pointer.
pub fn tag(p: u32) -> u32
    ensures { result ≡ tag_of p }
{
    p / TAG_STEP
}

// The number of the cell that a pointer names; 0 where it names none.
pub fn cell_number(p: u32) -> u32
    ensures { result ≡ cell_no p }
{
    (p % TAG_STEP).saturating_sub(1)
}

// Whether two pointers name cells of different numbers, or just one of them names none: then they don't match, whatever the mirror.
pub fn numbers_differ(p: u32, q: u32) -> bool
    ensures { result ≡ not (low_of p == low_of q) }
{
    p % TAG_STEP != q % TAG_STEP
}

// The pointer to a kept cell, so mirrored.
pub fn pointer(mirror: u32, number: u32) -> u32
    requires mirror_bound { mirror < 8 }
    requires number_bound { number + 1 < 2 ^ 29 }
    ensures { result ≡ pointer-to mirror number }
{
    mirror * TAG_STEP + (number + 1)
}

// Whether a pointer is not 0 and names none of `count` kept cells.
pub fn bad_pointer(count: u32, p: u32) -> bool
    ensures { result ≡ bad_pointer count p }
{
    if p == 0 {
        return false;
    }
    let low = p % TAG_STEP;
    if low < 1 {
        return true;
    }
    count < low
}

// Whether one of a cell's eight pointers is bad. All eight are tested, with no early exit: so it compiles to vector
// instructions, and a walk tests eight pointers about as fast as it takes one.
pub fn any_bad(count: u32, cell: [u32; 8]) -> bool
    ensures { result ≡ any_bad count cell }
{
    let mut bad = false;
    for p in cell {
        bad |= bad_pointer(count, p);
    }
    bad
}

// Whether none of a cell's eight children is there.
pub fn all_absent(cell: [u32; 8]) -> bool
    ensures { result ≡ all_below 8 (λ i. nat_eq (slice_index cell i) 0) }
{
    cell.iter().all(|p| *p == 0)
}

// Whether a cell is empty or has a bad pointer.
pub fn cell_bad(count: u32, cell: [u32; 8]) -> bool
    ensures { result ≡ not (cell_usable count cell) }
{
    all_absent(cell) || any_bad(count, cell)
}
