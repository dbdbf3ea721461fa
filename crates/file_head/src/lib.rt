#![tactic(auto)]

// The first bytes of a file of either kind: version byte, length and depth. Read and tested, refusals 3, 4 and 5 in this order, and written.
ghost use Rattle.std.specs.Prelude.{◌≡◌, not, ◌≤◌, ◌<◌, length};
ghost use Rattle.paper.specs.Outline.{version_ok, length_ok, file_depth};
ghost use Rattle.paper.specs.Answers.{number_of, answer_number};
ghost use Rattle.numbers.specs.Laid.{reached, writing};
ghost use Rattle.file_head.specs.Heads.{head_number, head_of};

use limits::{DEPTH_POSITION, LENGTH_BYTES, LENGTH_POSITION};
use numbers::{be32, put_number};
use paper::Refusal;
use points::depth_bad;

// Whether a file is empty or begins with another version byte.
fn version_bad(file: &[u8], version: u8) -> bool
    ensures { result ≡ not (version_ok version file.now) }
{
    file.is_empty() || file[0] != version
}

// Whether a file has fewer bytes than its kind begins with, or another length than its length field says.
fn length_bad(file: &[u8], head: usize) -> bool
    requires { 5 ≤ head }
    ensures { result ≡ not (length_ok head file.now) }
{
    file.len() < head || be32(file, LENGTH_POSITION) as usize != file.len()
}

// A file's depth: byte 5.
pub fn depth(file: &[u8]) -> u32
    requires { 6 ≤ length file.now }
    ensures { result ≡ file_depth file.now }
{
    u32::from(file[DEPTH_POSITION])
}

// Tests a file's version byte, its length and its depth: refusals 3, 4, 5 in this order. `version` is the version byte of its kind, `head` how
// many bytes a file of its kind has at least.
#[tactic(auto, unfolding(paper::specs::Order::first_number))]
pub fn test_head(file: &[u8], version: u8, head: usize) -> Result<(), Refusal>
    requires { 6 ≤ head }
    ensures { answer_number result ≡ head_number version head file.now }
{
    if version_bad(file, version) {
        return Err(Refusal::BadVersion);
    }
    if length_bad(file, head) {
        return Err(Refusal::BadLength);
    }
    if depth_bad(depth(file)) {
        return Err(Refusal::BadDepth);
    }
    Ok(())
}

// ---- written

// Writes a file's version byte, length and depth; answers the position after them.
pub fn write_head(out: &mut [u8], version: u8, total: u64, depth: u32) -> usize
    requires { (6 ≤ length out.old) × (depth < 256) }
    ensures { reached result out.new ≡ writing (head_of version total depth) 0 out.old }
{
    out[0] = version;
    put_number(out, LENGTH_POSITION, LENGTH_BYTES, total);
    out[DEPTH_POSITION] = depth as u8;
    DEPTH_POSITION + 1
}
