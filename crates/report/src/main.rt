#![tactic(auto)]

// The program of docs/RULES.md, on an outline from standard input.
fn main() {
    let mut input = [0u8; 8193];
    let size = io::read_full(0, &mut input);
    reporting::report(&input[..size]);
}
