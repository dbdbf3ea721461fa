// The lines that a script prints, put at the end of a text. A line has a form: words, and digits for the places of its numbers.
ghost use Rattle.std.specs.Prelude.{◌≡◌, ◌+◌, ◌≤◌, ◌<◌, length, IfSome};

use crate::command::Command;

// Puts bytes at a place of others, and answers the place after them.
pub fn put(text: &mut [u8], used: usize, bytes: &[u8]) -> usize
    requires { used + length bytes.now ≤ length text.old }
    ensures { result ≡ used + length bytes.now }
{
    let end = used + bytes.len();
    text[used..end].copy_from_slice(bytes);
    end
}

// Puts a number, of at most twenty digits.
fn decimal(text: &mut [u8], used: usize, number: u64) -> usize
    requires { used + 20 ≤ length text.old }
    ensures { result ≤ used + 20 }
{
    let mut digits = [0u8; 20];
    let n = io::decimal(number, &mut digits);
    put(text, used, &digits[..n])
}

// The place of the number that a byte of a form stands for, if it is a digit 0 to 5.
fn place(byte: u8) -> Option<usize>
    ensures { IfSome result (λ i. i < 6) }
{
    match byte {
        b'0'..=b'5' => Some((byte - b'0') as usize),
        _ => None,
    }
}

// Puts what a byte of a form stands for: a digit 0 to 5 for the number at its place, any other for itself.
fn piece(text: &mut [u8], used: usize, byte: u8, numbers: [u64; 6]) -> usize
    requires { used + 20 ≤ length text.old }
    ensures { result ≤ used + 20 }
{
    if let Some(i) = place(byte) {
        return decimal(text, used, numbers[i]);
    }
    text[used] = byte;
    used + 1
}

// Puts a line of this form with these numbers.
fn line(text: &mut [u8], used: usize, form: &[u8], numbers: [u64; 6]) -> usize
    requires short { length form.now ≤ 25 }
    requires room { used + 500 ≤ length text.old }
    ensures { result ≤ used + 500 }
{
    let mut end = used;
    for &byte in form {
        end = piece(text, end, byte, numbers);
    }
    end
}

// Puts what a command prints with these numbers. An opening that is accepted has the line of the question behind its own.
pub fn say(text: &mut [u8], used: usize, command: Command, numbers: [u64; 6]) -> usize
    requires { used + 1000 ≤ length text.old }
    ensures { result ≤ used + 1000 }
{
    let after = line(text, used, command.form(), numbers);
    if (command == Command::Open) & (numbers[0] == 0) {
        return line(text, after, b"ask 2 3 4 5\n", numbers);
    }
    after
}
