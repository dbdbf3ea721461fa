#![tactic(auto)]

// One record of a packed file, read by its header: whether it keeps the rules, its width, its pointers and where they lead; and one leaf.
ghost use Rattle.std.specs.Prelude.{◌≡◌, not, ◌+◌, ◌*◌, ◌%◌, ◌^◌, ◌≤◌, ◌<◌, T, length, drop, get_or};
ghost use Rattle.paper.specs.Numbers.{num};
ghost use Rattle.paper.specs.Store.{leaf_no};
ghost use Rattle.paper.specs.Packed.{halves, codes_ok, header_at, record_ok, pointer_of, pointers_at, no_pointer, code_for, leaf_at};
ghost use Rattle.packed_records.specs.Records.{pointer_is, header_ok, BytesOf, child_is, child_to};

mod target;

use limits::{CHILDREN, FARTHEST_SHORT, HALF_BYTES, LEAF_BYTES, LONG_PLACES, SHORT_PLACES};
use numbers::{be16, be32, be64};
use paper::Broken;
pub use target::Target;

// The low bit of each of a header's eight codes.
const LOW_BITS: u32 = 0x5555;

// The bytes of a record of eight 4-byte pointers: no record is longer.
const LONGEST: usize = 34;

// A child's pointer: its code (0 none, 1 of 2 bytes, 2 of 4), its mirror, and the child's place. The code stays the number that a header
// holds: rules count with it (it is the half-words of the pointer, and a place calls for one), so an enum would be turned back into it.
#[derive(Clone, Copy)]
pub struct Pointer {
    pub code: u32,
    pub tag: u32,
    pub place: u32,
}

// Where a pointer's bytes begin in its list, and its code.
#[derive(Clone, Copy)]
struct PointerBytes {
    from: usize,
    code: u32,
}

// The half-words of a record up to the pointer of child n: its header and the pointers before. The codes are added two by two,
// then four by four.
fn halves(n: u32, header: u32) -> u32
    requires { n ≤ 8 }
    ensures { (result ≡ halves n header) × (result ≤ 1 + 3 * n) }
{
    let codes = header % (1u32 << (2 * n));
    let pairs = (codes & 0x3333) + ((codes >> 2) & 0x3333);
    let fours = (pairs & 0x0f0f) + ((pairs >> 4) & 0x0f0f);
    1 + fours % 256 + fours / 256
}

// Whether one of the eight codes is 3: both its bits are set.
fn codes_bad(header: u32) -> bool
    ensures { result ≡ not (codes_ok 8 header) }
{
    header & (header >> 1) & LOW_BITS != 0
}

// Whether a record of this header breaks a rule wherever it is: header zero, or a code 3.
fn header_bad(header: u32) -> bool
    ensures { result ≡ not (header_ok header) }
{
    (header == 0) | codes_bad(header)
}

// Whether a record that begins at a position, which may be near its list's end, breaks a rule.
fn last_bad(list: &[u8], place: u32) -> bool
    ensures { result ≡ not (record_ok list.now place) }
{
    let at = HALF_BYTES * (place as usize);
    if list.len() < at + HALF_BYTES {
        return true;
    }
    let header = be16(list, at);
    header_bad(header) | (list.len() < at + HALF_BYTES * (halves(CHILDREN, header) as usize))
}

// Whether the record at a place breaks a rule: header zero, a code 3, or no room in its list.
pub fn record_bad(list: &[u8], place: u32) -> bool
    ensures { result ≡ not (record_ok list.now place) }
{
    let at = HALF_BYTES * (place as usize);
    if list.len() < at + LONGEST {
        return last_bad(list, place);
    }
    header_bad(be16(list, at))
}

// The half-words of a record that keeps its rules: its header's and those of its pointers.
pub fn width(list: &[u8], place: u32) -> u32
    requires { T (record_ok list.now place) }
    ensures { (result ≡ halves 8 (header_at list.now place)) × (result ≤ 25) }
{
    halves(CHILDREN, be16(list, HALF_BYTES * (place as usize)))
}

// The pointer of this code whose bytes begin at a position.
pub fn pointer_from(list: &[u8], from: usize, code: u32) -> Pointer
    requires { (code < 3) × (from + 2 * code ≤ length list.now) }
    ensures { (pointer_is result ≡ pointer_of code (num (2 * code) (drop from list.now))) × (result.tag < 8) × (result.place < 2 ^ 29) }
{
    if code == 0 {
        return Pointer {
            code: 0,
            tag: 0,
            place: 0,
        };
    }
    if code == 1 {
        let short = be16(list, from);
        return Pointer {
            code: 1,
            tag: short / SHORT_PLACES,
            place: short % SHORT_PLACES,
        };
    }
    let long = be32(list, from);
    Pointer {
        code: 2,
        tag: long / LONG_PLACES,
        place: long % LONG_PLACES,
    }
}

// Where the bytes of the pointer of child i of the record at a place begin, and its code.
fn bytes_of(list: &[u8], place: u32, i: u32) -> PointerBytes
    requires good { T (record_ok list.now place) }
    requires i_bound { i < 8 }
    ensures { BytesOf list.now place i result.from result.code }
{
    let at = HALF_BYTES * (place as usize);
    let header = be16(list, at);
    PointerBytes {
        from: at + HALF_BYTES * (halves(i, header) as usize),
        code: (header >> (2 * i)) % 4,
    }
}

// The pointer of child i of the record at a place.
pub fn pointer_at(list: &[u8], place: u32, i: u32) -> Pointer
    requires t { T (record_ok list.now place) }
    requires i_bound { i < 8 }
    ensures { (pointer_is result ≡ get_or (pointers_at list.now place) i no_pointer) × (result.tag < 8) }
{
    let bytes = bytes_of(list, place, i);
    pointer_from(list, bytes.from, bytes.code)
}

// The code of a pointer to a place.
pub fn code_for(place: u32) -> u32
    ensures { result ≡ code_for place }
{
    if place <= FARTHEST_SHORT { 1 } else { 2 }
}

// What the pointer of this code whose bytes begin at a position leads to: broken where its place calls for the other width.
fn child_from(list: &[u8], from: usize, code: u32) -> Result<Option<Target>, Broken>
    requires { (code < 3) × (from + 2 * code ≤ length list.now) }
    ensures { child_is result ≡ child_to (pointer_of code (num (2 * code) (drop from list.now))) }
{
    if code == 0 {
        return Ok(None);
    }
    if code == 1 {
        let short = be16(list, from);
        return Ok(Some(Target {
            mirror: short / SHORT_PLACES,
            place: short % SHORT_PLACES,
        }));
    }
    let long = be32(list, from);
    let place = long % LONG_PLACES;
    if code_for(place) == 1 {
        return Err(Broken);
    }
    Ok(Some(Target {
        mirror: long / LONG_PLACES,
        place,
    }))
}

// What child i of the record at a place is.
pub fn child(list: &[u8], place: u32, i: u32) -> Result<Option<Target>, Broken>
    requires good { T (record_ok list.now place) }
    requires i_bound { i < 8 }
    ensures { child_is result ≡ child_to (get_or (pointers_at list.now place) i no_pointer) }
{
    let bytes = bytes_of(list, place, i);
    child_from(list, bytes.from, bytes.code)
}

// The leaf of number `place` in the list of leaves, 0 where there is none.
pub fn leaf(leaves: &[u8], place: u32) -> u64
    requires { length leaves.now % 8 ≡ 0 }
    ensures { result ≡ leaf_no (leaf_at leaves.now place) }
{
    let at = LEAF_BYTES * (place as usize);
    if leaves.len() <= at {
        return 0;
    }
    be64(leaves, at)
}
