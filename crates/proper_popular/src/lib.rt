#![tactic(auto)]

// Popularity: how many pointers one height up name each record. They are counted in a scratch as long as the file, in the four bytes
// that lie there as the record's first four do in the file, and the counters are tested along each list. The lists are whole and every
// pointer names the start of a record.
ghost use Rattle.std.specs.Prelude.{◌≡◌, is_ok, not, ◌+◌, ◌%◌, ◌≤◌, ◌<◌, T, length, take, drop, replicate};
ghost use Rattle.paper.specs.Numbers.{all_in, all_below, num, bytes};
ghost use Rattle.paper.specs.Packed.{top_of, start_at, pointers_at};
ghost use Rattle.numbers.specs.Laid.{laid};
ghost use Rattle.proper_popular.specs.Places.{popular_rules, starts_in};
ghost use Rattle.packed_lists.specs.Ends.{unit_at};
ghost use Rattle.proper_marks.specs.Places.{places_in, leaves_in, RecordList, WholeList};
ghost use Rattle.proper_popular.specs.Counting.{count_pointer, count_pointers, count_records, countable, falls_by, counts_fall, Shared, Clean};

use limits::{CHILDREN, HALF_BYTES, LEAF_BYTES};
use numbers::{be32, put_number};
use packed_lists::unit_of;
use packed_records::pointer_at;
use paper::Broken;
use proper_marks::{Lists, place_after};

// The bytes of a counter.
const COUNTER: usize = 4;

// ---- the pointers to a place

// One more in the counter at a position.
fn add_one(counts: &mut [u8], at: usize)
    requires { at + 4 ≤ length counts.old }
    ensures { counts.new ≡ laid (bytes 4 (num 4 (drop at counts.old) + 1)) at counts.old }
{
    let n = u64::from(be32(counts, at));
    put_number(counts, at, COUNTER, n + 1);
}

// Counts pointer i of a record at its place.
fn count_pointer(list: &[u8], place: u32, i: u32, counts: &mut [u8], unit: usize)
    requires fits { T (countable unit (length counts.old) list.now place) }
    requires i_bound { (i < 8) × (unit ≤ 8) }
    ensures { counts.new ≡ count_pointer unit (pointers_at list.now place) i counts.old }
{
    let pointer = pointer_at(list, place, i);
    if pointer.code == 0 {
        return;
    }
    add_one(counts, unit * (pointer.place as usize));
}

// Counts the pointers of a record at their places.
fn count_record(list: &[u8], place: u32, counts: &mut [u8], unit: usize)
    requires fits { T (countable unit (length counts.old) list.now place) }
    requires unit_bound { unit ≤ 8 }
    ensures { counts.new ≡ count_pointers unit (pointers_at list.now place) 8 counts.old }
{
    for i in 0..CHILDREN {
        count_pointer(list, place, i, counts, unit);
    }
}

// Counts the pointers of the records of a list at their places.
fn count_records(list: &[u8], counts: &mut [u8], unit: usize)
    requires record_list { RecordList list.now }
    requires fits { T (all_in (countable unit (length counts.old) list.now) (places_in list.now)) }
    requires unit_bound { unit ≤ 8 }
    ensures { counts.new ≡ count_records unit list.now (places_in list.now) counts.old }
{
    // By hand: records differ in width, and an iterator's item would be tested again.
    let mut place = 0u32;
    while HALF_BYTES * (place as usize) < list.len() {
        count_record(list, place, counts, unit);
        place = place_after(list, place);
    }
}

// ---- the counters tested

// Whether a counter is 0 or above the one before.
fn rises(last: u32, n: u32) -> bool
    ensures { result ≡ not (falls_by last n) }
{
    (n == 0) | (last < n)
}

// Whether along the leaves a counter is 0 or above the one before.
fn leaves_rise(counts: &[u8]) -> bool
    requires { length counts.now % 8 ≡ 0 }
    ensures { result ≡ not (counts_fall 8 counts.now (leaves_in counts.now)) }
{
    let mut last = u32::MAX;
    for counter in counts.chunks_exact(LEAF_BYTES) {
        let n = be32(counter, 0);
        if rises(last, n) {
            return true;
        }
        last = n;
    }
    false
}

// Whether along the records of a list a counter is 0 or above the one before.
fn records_rise(list: &[u8], counts: &[u8]) -> bool
    requires whole_list { WholeList list.now }
    requires counts_len { length counts.now ≡ length list.now }
    ensures { result ≡ not (counts_fall 2 counts.now (places_in list.now)) }
{
    let mut last = u32::MAX;
    // By hand, as in `count_records`.
    let mut place = 0u32;
    while HALF_BYTES * (place as usize) < list.len() {
        let n = be32(counts, HALF_BYTES * (place as usize));
        if rises(last, n) {
            return true;
        }
        last = n;
        place = place_after(list, place);
    }
    false
}

// Whether a record of list k is not named, or more often than the one before it: counted over the pointers of the list above
// in the list's share, zero before.
fn share_bad(above: &[u8], list: &[u8], share: &mut [u8], k: u32) -> bool
    requires { Shared k above.now list.now (length share.old) }
    ensures { result ≡ not (counts_fall (unit_at k) (count_records (unit_at k) above.now (places_in above.now) share.old) (starts_in k list.now)) }
{
    count_records(above, share, unit_of(k));
    if k == 0 {
        return leaves_rise(share);
    }
    records_rise(list, share)
}

// Whether a record of list k is not named, or more often than the one before it.
fn list_bad(lists: &Lists, scratch: &mut [u8], k: u32) -> bool
    requires clean { Clean lists.now.file.now k scratch.old }
    requires below_top { k < lists.now.top }
    ensures { (result ≡ not (popular_rules lists.now.file.now k)) × (take (start_at lists.now.file.now k) scratch.new ≡ replicate (start_at lists.now.file.now k) 0) }
{
    let own = lists.range(k);
    let share = &mut scratch[own.start..own.end];
    share_bad(lists.list(k + 1), lists.list(k), share, k)
}

// Tests that each record below the top is named, and along a list none more often than the one before it. The scratch is zero before.
pub fn test(lists: &Lists, scratch: &mut [u8]) -> Result<(), Broken>
    requires { Clean lists.now.file.now 0 scratch.old }
    ensures { is_ok result ≡ all_below (top_of lists.now.file.now) (popular_rules lists.now.file.now) }
{
    for k in 0..lists.top {
        if list_bad(lists, scratch, k) {
            return Err(Broken);
        }
    }
    Ok(())
}
