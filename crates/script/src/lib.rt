#![tactic(auto)]

// A script of calls, played: each command makes one public call of `rooms` and says its answer in a line of text. All of it
// works on lent slices; `run` alone has the memory, and reads it in.
mod asks; // what a command asks for
mod calls; // the commands that ask the store
mod changes; // the commands that change the store or the current packed file
mod command; // the commands, by their letters
mod fill; // what lent memory holds before a call
mod given; // the numbers behind a command byte
mod turns; // one command after the other
mod program; // a descriptor to standard output
mod scenes; // the commands that ask the current packed file, and detail
mod sums; // what a slice holds, as one number
mod text; // the lines

pub use program::{run, start};
