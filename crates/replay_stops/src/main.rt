#![tactic(auto)]

// Scripts that end in `stop`, each played from the start: see `script`.
ghost use Rattle.std.specs.Prelude.{◌≤◌};

// A byte that is no command.
fn no_command() {
    script::start(b"");
    script::start(b"Z");
    script::start(b"\x00");
    script::start(b"HZH");
    script::start(b"j");
    script::start(b"k\x00\x00\x00\x02");
}

// A command of `size` bytes cut short by the end: all but its first byte, then its last byte.
fn cut(code: u8, size: usize)
    requires { size ≤ 29 }
{
    let mut script = [0u8; 29];
    script[0] = b'H';
    script[1] = code;
    script::start(&script[..2]);
    script::start(&script[..size]);
}

// Commands cut short in their numbers, and `L` in the bytes behind them too.
fn cut_short() {
    cut(b'N', 9);
    cut(b'V', 17);
    cut(b'C', 21);
    cut(b'B', 29);
    cut(b'Y', 29);
    cut(b'K', 5);
    cut(b'O', 9);
    cut(b'Q', 13);
    cut(b'h', 5);
    script::start(b"HL");
    script::start(b"HL\x00\x00\x00\x02a");
    cut(b'X', 6);
    cut(b'v', 13);
    cut(b'D', 22);
    cut(b'W', 9);
    script::start(b"L\x00\x00\x00");
}

// The limits, each reached and then passed.
fn limits() {
    script::start(b"N\x00\x00\x00\x01\x00\x04\x00\x00N\x00\x00\x00\x01\x00\x04\x00\x01H");
    script::start(b"N\x00\x00\x00\x00\xff\xff\xff\xff");
    script::start(b"O\x00\x00\x00\x00\x00\x01\x00\x00O\x00\x00\x00\x00\x00\x01\x00\x01H");
    script::start(b"O\x00\x00\x00\x00\xff\xff\xff\xff");
    script::start(b"L\x00\x01\x00\x01abc");
    script::start(b"L\xff\xff\xff\xff");
    script::start(
        b"D\x00\x00\x00\x02\x02\x00\x00\x00\x00\x00\x00\x00\x00\x00\x00\x00\x00\x00\x00\x00\x00D\x00\x00\x00\x02\x03\x00\x00\x00\x00\x00\x00\x00\x00\x00\x00\x00\x00\x00\x00\x00\x00H",
    );
    script::start(
        b"D\x00\x00\x00\x02\xff\x00\x00\x00\x00\x00\x00\x00\x00\x00\x00\x00\x00\x00\x00\x00\x00",
    );
}

// A script one byte too long prints nothing else.
fn too_long() {
    let script = [b'H'; 262145];
    script::start(&script);
}

// Every script that ends in `stop`.
fn main() {
    no_command();
    cut_short();
    limits();
    too_long();
}
