// The symmetry of a cell of any kind: 8 bits, bit t set where the cell is its own image under mirror t. Leaves, cells and records differ in that test alone.
ghost use Rattle.std.specs.Prelude.{◌≡◌, ◌<◌, Bool, ℕ};
ghost use Rattle.laws.specs.Symmetries.{symmetry_for};

use limits::MIRRORS;

// The eight answers of a test as the bits of a number, bit t that at mirror t.
pub fn symmetry_of<F: Fn(u32) -> bool>(test: F) -> u8
    ghost p: { ℕ → Bool }
    requires callable { (t : ℕ) → t < 8 → F.pre test t }
    requires tested { (t : ℕ) (b : Bool) → t < 8 → F.post test t b → b ≡ p t }
    ensures { result ≡ symmetry_for p }
{
    let mut symmetry = 0u8;
    for t in (0..MIRRORS).rev() {
        symmetry = 2 * symmetry + u8::from(test(t));
    }
    symmetry
}
