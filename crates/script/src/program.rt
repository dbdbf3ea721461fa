// The whole program: a script from a descriptor, its lines to standard output.
use crate::turns::play;

// The longest script.
const LONGEST: usize = 262144;

// Plays the script that a descriptor reads. One byte more is read than the longest has, to see that there is one.
pub fn run(fd: i32) {
    let mut script = [0u8; 262145];
    let size = io::read_full(fd, &mut script);
    start(&script[..size]);
}

// Plays a script from its start: 262,144 words of store and 131,072 of scratch, 65,536 bytes each for the current packed file and
// for output, which is also the scratch of a check.
pub fn start(script: &[u8]) {
    if script.len() > LONGEST {
        io::write_all(1, b"stop\n");
        return;
    }
    let mut store = [0u32; 262144];
    let mut file = [0u8; 65536];
    let mut out = [0u8; 65536];
    let mut scratch = [0u32; 131072];
    let mut text = [0u8; 4096];
    play(
        script,
        &mut store,
        &mut file,
        &mut out,
        &mut scratch,
        &mut text,
    );
}
