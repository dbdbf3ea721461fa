#![tactic(auto)]

// The calls that C makes with numbers in the place of a struct or of a wish: an opened scene by sixteen numbers, a wish by its kind and two numbers.
ghost use Rattle.std.specs.Prelude.{◌≡◌, [], ◌∷◌, ◌≤◌, length};
ghost use Rattle.paper.specs.Answers.{outcome, started, found, chosen};
ghost use Rattle.paper.specs.Calls.{over};
ghost use Rattle.points.specs.Points.{at};
ghost use Rattle.rooms_numbers.specs.Numbers.{opened_numbers, starts_held, wish_given, open_c_outcome, ask_c_outcome, detail_c_outcome};

use rooms::{DistanceFactor, Found, Point, Refusal, Wish};

// The numbers of an opened scene: the depth, then the fifteen list starts.
const OPENED_NUMBERS: usize = 16;

/// Opening: the depth and the fifteen list starts, written to the first sixteen numbers; refused by 3, 4, 5, 6, then 12
/// where there are fewer, with the numbers as they were.
pub fn open_numbers(file: &[u8], numbers: &mut [u32]) -> Result<(), Refusal>
    ensures { outcome (started result) (numbers.new ∷ []) ≡ open_c_outcome file.now numbers.old }
{
    let header = rooms::read_header(file)?;
    if numbers.len() < OPENED_NUMBERS {
        return Err(Refusal::OutputShort);
    }
    write_numbers(numbers, header.depth, header.starts);
    Ok(())
}

/// A question on bytes held beside the numbers that an opening wrote: 6 where there are fewer than sixteen, then as on an opened scene.
pub fn ask_numbers(file: &[u8], numbers: &[u32], v: Point) -> Result<Found, Refusal>
    ensures { outcome (found result) [] ≡ ask_c_outcome file.now numbers.now (at v) }
{
    if numbers.len() < OPENED_NUMBERS {
        return Err(Refusal::BrokenRules);
    }
    rooms::ask_bytes(file, numbers[0], read_starts(numbers), v)
}

/// Detail: the height at which to draw a scene of this depth; the wish is given by its kind and two numbers.
pub fn detail_numbers(depth: u32, kind: u32, a: f64, b: f64) -> Result<u32, Refusal>
    ensures { outcome (chosen result) [] ≡ detail_c_outcome depth kind a b }
{
    rooms::detail(depth, wish_of(kind, a, b))
}

// The wish of a kind: 0 every voxel, 1 a widest edge, 2 a distance with its factor; for another kind a wish that is out of range.
fn wish_of(kind: u32, a: f64, b: f64) -> Wish
    ensures { result ≡ wish_given kind a b }
{
    if kind == 0 {
        return Wish::EveryVoxel;
    }
    if kind == 1 {
        return Wish::WidestEdge(a);
    }
    if kind == 2 {
        return Wish::Distance(DistanceFactor {
            distance: a,
            factor: b,
        });
    }
    Wish::WidestEdge(0.0)
}

// The depth and the list starts, written to the first sixteen numbers.
fn write_numbers(numbers: &mut [u32], depth: u32, starts: [u32; 15])
    requires { opened_numbers ≤ length numbers.old }
    ensures { numbers.new ≡ over (depth ∷ starts) numbers.old }
{
    numbers[0] = depth;
    numbers[1..OPENED_NUMBERS].copy_from_slice(&starts);
}

// The list starts among the numbers: those after the first.
fn read_starts(numbers: &[u32]) -> [u32; 15]
    requires { opened_numbers ≤ length numbers.now }
    ensures { result ≡ starts_held numbers.now }
{
    let mut starts = [0u32; 15];
    starts.copy_from_slice(&numbers[1..OPENED_NUMBERS]);
    starts
}
