// Words 0 to 31: the capacity, the scenes held, the cells kept at each height, and zeros.
ghost use Rattle.std.specs.Prelude.{◌≡◌, not, ◌&&◌, ◌+◌, ◌≤◌, ◌<◌, T, leb, length};
ghost use Rattle.paper.specs.Numbers.{all_below};
ghost use Rattle.paper.specs.Store.{most_capacity, most_scenes, heights, used, capacity_of, scenes_held, is_held, kept_count, scene_position, blank, capacity_ok, header_ok};

use crate::lent::Store;

// A capacity is 1 to 65,536.
const LEAST_CAPACITY: u32 = 1;

const MOST_CAPACITY: u32 = 65536;

// At most 64 scenes are held.
pub const MOST_SCENES: u32 = 64;

// The lists of cells, for heights 2 to 16.
pub const HEIGHTS: u32 = 15;

// The first list's place: the words before it are there at any capacity.
pub const FIRST_LIST: usize = 160;

// The words of all lists for each unit of capacity: 2 and 14 times 10; with the next words, 15 more.
pub const LISTS_PER_UNIT: usize = 142;

const WORDS_PER_UNIT: usize = 157;

// The chains of each height, and the heads of all.
pub const CHAINS: usize = 256;

const HEADS: usize = 3840;

// The place of list 0's count; the counts of the other lists follow.
pub const FIRST_COUNT: u32 = 2;

// The header's words that are always zero: their place and how many.
const ZEROS: usize = 17;

const ZERO_WORDS: usize = 15;

// The words that a store of this capacity uses.
pub fn used_words(capacity: u32) -> usize
    requires { capacity ≤ most_capacity }
    ensures { result ≡ used capacity }
{
    FIRST_LIST + HEADS + WORDS_PER_UNIT * (capacity as usize)
}

// Whether a capacity is out of range, or so many words are too few for it.
pub fn size_bad(capacity: u32, words: usize) -> bool
    ensures { result ≡ not (capacity_ok capacity && leb (used capacity) words) }
{
    if capacity < LEAST_CAPACITY {
        return true;
    }
    if MOST_CAPACITY < capacity {
        return true;
    }
    words < used_words(capacity)
}

// Whether a list's count is above the capacity. Here and below no early exit: so it compiles to vector instructions.
fn counts_bad(words: &[u32]) -> bool
    requires { scene_position most_scenes ≤ length words.now }
    ensures { result ≡ not (all_below heights (λ k. leb (kept_count words.now k) (capacity_of words.now))) }
{
    let mut bad = false;
    for k in 0..HEIGHTS {
        bad |= words[0] < words[(FIRST_COUNT + k) as usize];
    }
    bad
}

// Whether one of n words from `at` on is not zero.
pub fn not_blank(words: &[u32], at: usize, n: usize) -> bool
    requires { at + n ≤ length words.now }
    ensures { result ≡ not (blank words.now at n) }
{
    let mut bad = false;
    for word in &words[at..at + n] {
        bad |= *word != 0;
    }
    bad
}

// Whether the header is damaged: words 0 to 31 out of range, or the slice too short.
#[inline(never)]
pub fn header_bad(words: &[u32]) -> bool
    ensures { result ≡ not (header_ok words.now) }
{
    if words.len() < FIRST_LIST {
        return true;
    }
    if size_bad(words[0], words.len()) {
        return true;
    }
    if MOST_SCENES < words[1] {
        return true;
    }
    if counts_bad(words) {
        return true;
    }
    not_blank(words, ZEROS, ZERO_WORDS)
}
