#![tactic(auto)]

// Whether a pointer of a packed file is long, of 4 bytes: the codes of every record above the leaves, list by list, in a file that keeps its rules. No scratch.
ghost use Rattle.std.specs.Prelude.{◌≡◌, not, ◌<◌, T};
ghost use Rattle.paper.specs.Numbers.{all_in, all_below};
ghost use Rattle.paper.specs.Packed.{top_of, record_ok, packed_rules, short_at, short_list, all_short};
ghost use Rattle.laws.proofs.PackedWalk.{SoundLists};
ghost use Rattle.packed_lists.specs.Header.{Tested};
ghost use Rattle.proper_marks.specs.Places.{places_in, WholeList};
ghost use Rattle.proper_long.specs.Longs.{codes_short};

use limits::{DEPTH_POSITION, EMPTY_MARK, HALF_BYTES, LEAF_HEIGHT, MIRROR_POSITION};
use numbers::be16;
use proper_marks::{Lists, place_after};

// The high bit of each of a header's eight codes.
const HIGH_BITS: u32 = 0xaaaa;

// Whether one of the eight codes is above 1: its high bit is set.
fn codes_long(header: u32) -> bool
    ensures { result ≡ not (codes_short 8 header) }
{
    header & HIGH_BITS != 0
}

// Whether a pointer of the record at a place is long.
fn record_long(list: &[u8], place: u32) -> bool
    requires { T (record_ok list.now place) }
    ensures { result ≡ not (short_at list.now place) }
{
    codes_long(be16(list, HALF_BYTES * (place as usize)))
}

// Whether a pointer of a list's records is long.
fn records_long(list: &[u8]) -> bool
    requires { WholeList list.now }
    ensures { result ≡ not (all_in (short_at list.now) (places_in list.now)) }
{
    // By hand: records differ in width, and an iterator's item would be tested again.
    let mut place = 0u32;
    while HALF_BYTES * (place as usize) < list.len() {
        if record_long(list, place) {
            return true;
        }
        place = place_after(list, place);
    }
    false
}

// Whether a pointer to a record of list `below` is long.
fn list_long(lists: &Lists, below: u32) -> bool
    requires sound { SoundLists lists.now.file.now }
    requires below_top { below < lists.now.top }
    ensures { result ≡ not (short_list lists.now.file.now below) }
{
    records_long(lists.list(below + 1))
}

// Whether a pointer of a list above the leaves is long.
fn lists_long(lists: &Lists) -> bool
    requires { SoundLists lists.now.file.now }
    ensures { result ≡ not (all_below (top_of lists.now.file.now) (short_list lists.now.file.now)) }
{
    for below in 0..lists.top {
        if list_long(lists, below) {
            return true;
        }
    }
    false
}

// Whether a pointer of a proper file is long; of an empty scene none is.
pub fn any_long(file: &[u8]) -> bool
    requires tested { Tested file.now }
    requires t { T (packed_rules file.now) }
    ensures { result ≡ not (all_short file.now) }
{
    if file[MIRROR_POSITION] == EMPTY_MARK {
        return false;
    }
    let top = u32::from(file[DEPTH_POSITION]) - LEAF_HEIGHT;
    let lists = Lists::of(file, top);
    lists_long(&lists)
}
