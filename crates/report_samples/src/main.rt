#![tactic(auto)]

// The program of docs/RULES.md on many inputs: each stands on standard input behind its length, two bytes, high first.
// Reports each input of these bytes, one after the other: its length says where the next begins, so what is left is cut, not counted.
fn report_all(all: &[u8]) {
    let mut left = all;
    while left.len() >= 2 {
        let end = (256 * u32::from(left[0]) + u32::from(left[1]) + 2) as usize;
        if left.len() < end {
            return;
        }
        reporting::report(&left[2..end]);
        left = &left[end..];
    }
}

// Reports every input that stands on standard input.
fn main() {
    let mut all = [0u8; 65536];
    let size = io::read_full(0, &mut all);
    report_all(&all[..size]);
}
