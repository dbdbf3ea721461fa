#![tactic(auto)]

// Samples of opened scenes: a line for each question on a scene opened for it, with the refusal's number (0 where accepted),
// 1 for solid or 0 for empty, the records read, and the height of the emptiness.
ghost use Rattle.std.specs.Prelude.{◌<◌};

use rooms::{Found, Point, Refusal, number, solid_records_height};

// One line of output.
fn line(number: u32, solid: u32, records: u32, height: u32) {
    io::write_all(1, b"ask ");
    io::print_decimal(1, u64::from(number));
    io::write_all(1, b" ");
    io::print_decimal(1, u64::from(solid));
    io::write_all(1, b" ");
    io::print_decimal(1, u64::from(records));
    io::write_all(1, b" ");
    io::print_decimal(1, u64::from(height));
    io::write_all(1, b"\n");
}

// Shows an answer.
fn show(answer: Result<Found, Refusal>) {
    let [solid, records, height] = solid_records_height(answer);
    line(number(answer), solid, records, height);
}

// Opens, asks, and shows the answer.
fn sample(file: &[u8], x: u32, y: u32, z: u32) {
    show(rooms::open_and_ask(file, Point { x, y, z }));
}

// S1's packed room.
const ROOM: [u8; 29] = [
    0x22, 0, 0, 0, 0x1D, 3, 0, 0, 0, 0, 3, 0, 0, 0, 1, 0, 5, 0, 0, 0x20, 0, 0, 0, 0, 0, 0, 0, 0, 1,
];

// S2 to S5.
fn room() {
    let file = ROOM;
    sample(&file, 7, 0, 0);
    sample(&file, 4, 0, 0);
    sample(&file, 0, 4, 0);
    sample(&file, 8, 0, 0);
}

// The room with one byte changed: its opening is refused, or the question alone.
fn changed(at: usize, byte: u8)
    requires { at < 29 }
{
    let mut file = ROOM;
    file[at] = byte;
    sample(&file, 0, 0, 0);
}

// The room asked at (7, 0, 0) beside numbers that may not be those of its header: the depth, where the top list starts, where
// the leaves do, and where a list that it has not does.
fn beside(depth: u32, top: u32, leaves: u32, other: u32) {
    let file = ROOM;
    let mut starts = [0u32; 15];
    starts[0] = leaves;
    starts[1] = top;
    starts[14] = other;
    show(rooms::ask_bytes(&file, depth, starts, Point { x: 7, y: 0, z: 0 }));
}

// Every sample, line by line.
fn main() {
    room();
    // an empty scene, whole and one byte too long
    sample(&[0x22, 0, 0, 0, 7, 2, 8], 3, 3, 3);
    sample(&[0x22, 0, 0, 0, 8, 2, 8, 0], 3, 3, 3);
    // nothing, and less than a head
    sample(&[], 0, 0, 0);
    sample(&[0x22, 0, 0, 0, 6, 2], 0, 0, 0);
    // version byte, that of older files too, length, depth, byte 6, a size, a header with code 3, a leaf that is zero
    changed(0, 0x11);
    changed(0, 0x21);
    changed(4, 0x1C);
    changed(5, 17);
    changed(6, 9);
    changed(10, 4);
    changed(16, 7);
    changed(28, 0);
    // the root mirrored in x
    changed(6, 1);
    // the numbers of its header, then each of them another
    beside(3, 15, 21, 0);
    beside(2, 15, 21, 0);
    beside(4, 15, 21, 0);
    beside(3, 14, 21, 0);
    beside(3, 15, 20, 0);
    beside(3, 15, 21, 1);
    beside(0, 0, 0, 0);
}
