#![tactic(auto)]

// A leaf as a number: its mirror image, and the mirrors under which it is its own image. The one function that mirrors a
// leaf; its contract is by voxels.
ghost use Rattle.std.specs.Prelude.{◌≡◌, ◌*◌, ◌<◌, T, eqb};
ghost use Rattle.paper.specs.Leaf.{mirror_leaf};
ghost use Rattle.paper.specs.Store.{leaf_solid};
ghost use Rattle.laws.specs.Symmetries.{symmetry_for};
ghost use Rattle.leaf.specs.Moves.{moved, swaps, axis};

mod symmetry; // eight answers of a test, as the bits of a number

pub use symmetry::symmetry_of;

// The bits whose number lacks a step of 1, 2, 4, 8, 16 or 32: those that change places with the bit so far above.
const BELOW_1: u64 = 0x5555555555555555;

const BELOW_2: u64 = 0x3333333333333333;

const BELOW_4: u64 = 0x0F0F0F0F0F0F0F0F;

const BELOW_8: u64 = 0x00FF00FF00FF00FF;

const BELOW_16: u64 = 0x0000FFFF0000FFFF;

const BELOW_32: u64 = 0x00000000FFFFFFFF;

// The steps of x, y and z in the number of a voxel's bit.
const X: u32 = 1;

const Y: u32 = 4;

const Z: u32 = 16;

// The bits that lie a step apart, in each other's places.
fn swap(leaf: u64, below: u64, step: u32) -> u64
    requires { T (swaps below step) }
    ensures { result ≡ moved step leaf }
{
    ((leaf >> step) & below) | ((leaf & below) << step)
}

// The leaf mirrored along an axis, where this is marked: a coordinate below 4 is mirrored by changing both its bits.
fn mirror_axis(leaf: u64, marked: u32, below: u64, step: u32, twice: u64) -> u64
    requires { (marked < 2) × T (axis below step twice) }
    ensures { result ≡ moved (marked * (3 * step)) leaf }
{
    if marked == 0 {
        return leaf;
    }
    swap(swap(leaf, below, step), twice, 2 * step)
}

// The leaf so mirrored.
pub fn mirror_leaf(leaf: u64, mirror: u32) -> u64
    ensures { result ≡ mirror_leaf mirror leaf }
{
    let across_x = mirror_axis(leaf, mirror % 2, BELOW_1, X, BELOW_2);
    let across_y = mirror_axis(across_x, mirror / 2 % 2, BELOW_4, Y, BELOW_8);
    mirror_axis(across_y, mirror / 4 % 2, BELOW_16, Z, BELOW_32)
}

// The symmetry of a leaf: bit t is set where it is its own image under mirror t.
pub fn leaf_symmetry(leaf: u64) -> u8
    ensures { result ≡ symmetry_for (λ t. eqb leaf (mirror_leaf t leaf)) }
{
    symmetry_of(|t| leaf == mirror_leaf(leaf, t))
}

// How many solid voxels a leaf has.
pub fn leaf_solid(leaf: u64) -> u64
    ensures { result ≡ leaf_solid leaf }
{
    u64::from(leaf.count_ones())
}
