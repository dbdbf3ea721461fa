#![tactic(auto)]

// The lists of a packed file, by the sizes in its header: whether they add up, where each list starts and ends, and what a place counts.
ghost use Rattle.std.specs.Prelude.{◌≡◌, not, is_ok, OnOk, ◌+◌, ◌≤◌, ◌<◌, length, replicate};
ghost use Rattle.paper.specs.Store.{heights};
ghost use Rattle.paper.specs.Packed.{top_of, tail_at, head_ok, starts_of};
ghost use Rattle.packed_lists.specs.Header.{Tested, Sized, Opens, front_of, laid_starts};
ghost use Rattle.packed_lists.specs.Ends.{end_in, unit_at};

use limits::{
    DEPTH_POSITION, EMPTY_MARK, HALF_BYTES, LEAF_BYTES, LEAF_HEIGHT, MIRROR_POSITION, PACKED_HEAD,
};
use numbers::be32;
use paper::Broken;

// The starts that a word holds are below this.
const START_SPAN: u64 = 4294967296;

// Writes where each list starts, as the sizes say, from the top down; answers where the leaves end. Each size is read once; the
// sum is a whole number that doesn't wrap, and a start that doesn't fit is cut.
fn sized_lists(file: &[u8], out: &mut [u32; 15]) -> u64
    requires sized { Sized file.now }
    requires blank { out.old ≡ replicate heights 0 }
    ensures end { result ≡ front_of file.now + tail_at file.now (top_of file.now) }
    ensures laid { out.new ≡ laid_starts file.now }
{
    let top = u32::from(file[DEPTH_POSITION]) - LEAF_HEIGHT;
    let mut at = PACKED_HEAD;
    let mut start = (PACKED_HEAD + 4 * ((top + 1) as usize)) as u64;
    out[top as usize] = (start % START_SPAN) as u32;
    for k in (0..top).rev() {
        start += 2 * u64::from(be32(file, at));
        at += 4;
        out[k as usize] = (start % START_SPAN) as u32;
    }
    start + 8 * u64::from(be32(file, at))
}

// Tests byte 6 and, unless the scene is empty, that the sizes add up to the length. Where they do, writes where each list starts in the
// file, leaves first; 0 above the depth and for an empty scene.
pub fn read_lists(file: &[u8], out: &mut [u32; 15]) -> Result<(), Broken>
    requires tested { Tested file.now }
    requires blank { out.old ≡ replicate heights 0 }
    ensures good { is_ok result ≡ head_ok file.now }
    ensures starts { OnOk result (out.new ≡ starts_of file.now) }
{
    let mark = file[MIRROR_POSITION];
    if mark == EMPTY_MARK {
        if file.len() != PACKED_HEAD {
            return Err(Broken);
        }
        return Ok(());
    }
    let lists = u32::from(file[DEPTH_POSITION]) - 1;
    if (EMPTY_MARK < mark) | (file.len() < PACKED_HEAD + 4 * (lists as usize)) {
        return Err(Broken);
    }
    if sized_lists(file, out) != file.len() as u64 {
        return Err(Broken);
    }
    Ok(())
}

// Whether byte 6 or the sizes are bad, with the starts left out.
pub fn head_bad(file: &[u8]) -> bool
    requires { Tested file.now }
    ensures { result ≡ not (head_ok file.now) }
{
    let mut out = [0u32; 15];
    read_lists(file, &mut out).is_err()
}

// Where each list starts in the file, leaves first; 0 above the depth and for an empty scene.
pub fn starts(file: &[u8]) -> [u32; 15]
    requires { Opens file.now }
    ensures { result ≡ starts_of file.now }
{
    let mut out = [0u32; 15];
    let _ = read_lists(file, &mut out);
    out
}

// Where list k ends in the file.
pub fn list_end(starts: [u32; 15], length: usize, k: u32) -> usize
    requires { k < 15 }
    ensures { result ≡ end_in starts length k }
{
    if k == 0 {
        return length;
    }
    starts[(k - 1) as usize] as usize
}

// The bytes that a place of list k counts.
pub fn unit_of(k: u32) -> usize
    ensures { (result ≡ unit_at k) × (result ≤ 8) }
{
    if k == 0 { LEAF_BYTES } else { HALF_BYTES }
}
