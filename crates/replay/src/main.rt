#![tactic(auto)]

// Plays the script on standard input: see `script`.
fn main() {
    script::run(0);
}
