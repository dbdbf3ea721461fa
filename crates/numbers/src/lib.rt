#![tactic(auto)]

// 'big-endian': the numbers that a file's bytes write, and numbers laid over an output.
ghost use Rattle.std.specs.Prelude.{◌≡◌, ◌+◌, ◌^◌, ◌≤◌, ◌<◌, length, take, drop};
ghost use Rattle.paper.specs.Numbers.{num, bytes};
ghost use Rattle.numbers.specs.Laid.{laid, reached, writing};

// A byte as a wider number.
pub fn wide(x: u8) -> u32
    ensures { (result ≡ x) × (result < 256) }
{
    x as u32
}

// A word as a wider number.
pub fn wider(x: u32) -> u64
    ensures { (result ≡ x) × (result < 2 ^ 32) }
{
    x as u64
}

// The N bytes from a position on.
fn bytes_at<const N: usize>(bytes: &[u8], at: usize) -> [u8; N]
    requires { at + N ≤ length bytes.now }
    ensures { result ≡ take N (drop at bytes.now) }
{
    let mut taken = [0u8; N];
    taken.copy_from_slice(&bytes[at..at + N]);
    taken
}

// The number that the two bytes from a position on write.
pub fn be16(bytes: &[u8], at: usize) -> u32
    requires { at + 2 ≤ length bytes.now }
    ensures { (result ≡ num 2 (drop at bytes.now)) × (result < 65536) }
{
    u32::from(u16::from_be_bytes(bytes_at(bytes, at)))
}

// The number that the four bytes from a position on write.
pub fn be32(bytes: &[u8], at: usize) -> u32
    requires { at + 4 ≤ length bytes.now }
    ensures { result ≡ num 4 (drop at bytes.now) }
{
    u32::from_be_bytes(bytes_at(bytes, at))
}

// The number that the eight bytes from a position on write.
pub fn be64(bytes: &[u8], at: usize) -> u64
    requires { at + 8 ≤ length bytes.now }
    ensures { result ≡ num 8 (drop at bytes.now) }
{
    u64::from_be_bytes(bytes_at(bytes, at))
}

// Writes the last n bytes of a number from `at` on. Byte by byte, not out of `to_be_bytes`: n may be more than eight.
pub fn put_number(out: &mut [u8], at: usize, n: usize, number: u64)
    requires { at + n ≤ length out.old }
    ensures { out.new ≡ laid (bytes n number) at out.old }
{
    let mut rest = number;
    for i in (0..n).rev() {
        out[at + i] = (rest % 256) as u8;
        rest /= 256;
    }
}

// Writes them so; answers the position after them.
pub fn write_number(out: &mut [u8], at: usize, n: usize, number: u64) -> usize
    requires { at + n ≤ length out.old }
    ensures { reached result out.new ≡ writing (bytes n number) at out.old }
{
    put_number(out, at, n, number);
    at + n
}
