#![tactic(auto)]

// The program of docs/RULES.md: an outline is added to a store of capacity 32, and its answer, the cells kept at each height, the solid
// voxels of the whole room and the packed length are printed.
ghost use Rattle.std.specs.Prelude.{◌≤◌};

use limits::{DEEPEST, DEPTH_POSITION, LEAST_DEPTH};
use rooms::Point;

// The longest input; a longer one prints `answer 4` alone.
pub const MOST_INPUT: usize = 8192;

// The store's capacity, and its words: 4,000 + 157 C. Scratch of packing: 60 C words. The output of packing.
const CAPACITY: u32 = 32;

const STORE_WORDS: usize = 9024;

const SCRATCH_WORDS: usize = 1920;

const MOST_PACKED: usize = 8192;

// A line of a word and a number.
fn line(word: &[u8], number: u64) {
    io::write_all(1, word);
    io::write_all(1, b" ");
    io::print_decimal(1, number);
    io::write_all(1, b"\n");
}

// The depth that a file says; 0 where it says none that a scene can have.
fn depth(file: &[u8]) -> u32
    ensures { result ≤ 16 }
{
    if file.len() <= DEPTH_POSITION {
        return 0;
    }
    let said = u32::from(file[DEPTH_POSITION]);
    if DEEPEST < said {
        return 0;
    }
    said
}

// The cells kept from a height down to 2.
fn kept_lines(store: &[u32], depth: u32)
    requires { depth ≤ 16 }
{
    for height in (LEAST_DEPTH..depth + 1).rev() {
        io::write_all(1, b"height ");
        io::print_decimal(1, u64::from(height));
        line(b" kept", u64::from(rooms::kept(store, height).unwrap_or(0)));
    }
}

// The solid voxels of the whole room of scene 0.
fn solid_line(store: &[u32], depth: u32)
    requires { depth ≤ 16 }
{
    let edge = 1u32 << depth;
    let low = Point { x: 0, y: 0, z: 0 };
    let high = Point {
        x: edge,
        y: edge,
        z: edge,
    };
    let count = rooms::box_count(store, 0, low, high);
    line(b"solid", count.unwrap_or(0));
}

// The packed length of scene 0, 0 where the output doesn't hold it.
fn packed_line(store: &[u32]) {
    let mut scratch = [0u32; SCRATCH_WORDS];
    let mut out = [0u8; MOST_PACKED];
    let length = rooms::pack(store, 0, &mut scratch, &mut out);
    line(b"packed", u64::from(length.unwrap_or(0)));
}

// What the program prints for an input.
pub fn report(input: &[u8]) {
    if MOST_INPUT < input.len() {
        line(b"answer", 4);
        return;
    }
    let mut store = [0u32; STORE_WORDS];
    let _ = rooms::new_store(&mut store, CAPACITY);
    let answer = rooms::add(&mut store, input);
    line(b"answer", u64::from(rooms::number(answer)));
    if answer.is_err() {
        return;
    }
    let deep = depth(input);
    kept_lines(&store, deep);
    solid_line(&store, deep);
    packed_line(&store);
}
