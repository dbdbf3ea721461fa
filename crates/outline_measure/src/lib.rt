#![tactic(auto)]

// How long a cell's record in an outline is, up to a limit. Each record counts at least a byte, and none is entered where the
// limit is passed: so no more are read than the limit has bytes, and one, however long the file is that shared cells stand for.
ghost use Rattle.std.specs.Prelude.{◌<◌, ◌^◌};
ghost use Rattle.paper.specs.Store.{kept_of};
ghost use Rattle.outline_measure.specs.Measure.{Kept, Within, measure_at};

use limits::{CHILDREN, LEAF_BYTES};
use store::Store;
use store_pointers::cell_number;

// The length of a leaf's record.
const LEAF_LENGTH: u64 = LEAF_BYTES as u64;

// The length of the record of cell n of list k; none where it is longer than the limit.
pub fn measure(store: Store, k: u32, n: u32, limit: u64) -> Option<u64>
    requires kept { Kept store.words.now k n }
    requires limit_bound { limit < 2 ^ 32 }
    ensures { Within limit (measure_at (kept_of store.entry.words.now) k n) result }
{
    if k == 0 {
        return if limit < LEAF_LENGTH {
            None
        } else {
            Some(LEAF_LENGTH)
        };
    }
    if limit == 0 {
        return None;
    }
    let cell = store.cell_at(k, n);
    let mut sum = 1u64;
    for i in (0..CHILDREN).rev() {
        let p = cell[i as usize];
        if p == 0 {
            continue;
        }
        sum += measure(store, k - 1, cell_number(p), limit - sum)?;
    }
    Some(sum)
}
