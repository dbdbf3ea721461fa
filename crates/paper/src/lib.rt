#![tactic(auto)]

// What the calls take and answer. An answer is a `Result` with `Refusal`; its reading as the documents' number and values is
// specs/Answers.antt; the calls themselves are those of the crate `rooms`.

ghost use Rattle.std.specs.Prelude.{◌≡◌, get_or, Result};
ghost use Rattle.paper.specs.Answers.{number_of, answer_number, seen, sighted, occupied, searched, found};

/// The refusals, each with its number in the table of docs/RULES.md.
#[derive(Clone, Copy, PartialEq, Eq)]
pub enum Refusal {
    BadSize = 1,
    DamagedStore = 2,
    BadVersion = 3,
    BadLength = 4,
    BadDepth = 5,
    BrokenRules = 6,
    ScenesFull = 7,
    CellsFull = 8,
    NoScene = 9,
    Outside = 10,
    ScratchShort = 11,
    OutputShort = 12,
    BadWish = 13,
    TooDeep = 14,
    LongPointer = 15,
}

impl Refusal {
    /// Its number in the table.
    pub fn number(self) -> u32
        ensures { result ≡ number_of self }
    {
        self as u32
    }
}

/// A walk through a store met a word that no call writes.
#[derive(Clone, Copy)]
pub struct Damaged;

impl From<Damaged> for Refusal {
    ghost use Rattle.paper.specs.declared.Refusal.TheVariants.{DamagedStore};

    ghost from_gives = { λ _ r. r ≡ DamagedStore };

    fn from(_: Damaged) -> Refusal {
        Refusal::DamagedStore
    }
}

/// A file breaks a rule of its format.
#[derive(Clone, Copy)]
pub struct Broken;

impl From<Broken> for Refusal {
    ghost use Rattle.paper.specs.declared.Refusal.TheVariants.{BrokenRules};

    ghost from_gives = { λ _ r. r ≡ BrokenRules };

    fn from(_: Broken) -> Refusal {
        Refusal::BrokenRules
    }
}

/// The cells at a height would outnumber the capacity.
#[derive(Clone, Copy)]
pub struct Full;

impl From<Full> for Refusal {
    ghost use Rattle.paper.specs.declared.Refusal.TheVariants.{CellsFull};

    ghost from_gives = { λ _ r. r ≡ CellsFull };

    fn from(_: Full) -> Refusal {
        Refusal::CellsFull
    }
}

/// Voxel: an empty one with the height of its emptiness: of the child that isn't there, 0 in a leaf.
#[derive(Clone, Copy)]
pub enum Voxel {
    Solid,
    Empty(u32),
}

/// Sight line: clear, or the first voxel that blocks it, by x, y and z.
#[derive(Clone, Copy)]
pub enum Sight {
    Clear,
    Blocked(u32, u32, u32),
}

/// Anything in the way: whether a box holds a solid voxel, with the number of cells entered.
#[derive(Clone, Copy)]
pub struct Searched {
    pub found: bool,
    pub entered: u64,
}

/// Packed voxel, and a question on an opened scene: the voxel, with the number of records read on the way.
#[derive(Clone, Copy)]
pub struct Found {
    pub voxel: Voxel,
    pub records: u32,
}

/// A distance with the factor that goes with it.
#[derive(Clone, Copy)]
pub struct DistanceFactor {
    pub distance: f64,
    pub factor: f64,
}

/// What is wished for, in one of three ways.
#[derive(Clone, Copy)]
pub enum Wish {
    EveryVoxel,
    WidestEdge(f64),
    Distance(DistanceFactor),
}

/// A packed scene opened for many questions: the file itself, its depth, and where its lists begin. starts[k] is the
/// position in the bytes at which the list of height k + 2 begins, 0 above the depth.
#[derive(Clone, Copy)]
pub struct Opened<'a> {
    pub bytes: &'a [u8],
    pub depth: u32,
    pub starts: [u32; 15],
}

/// Opening: the refusal, if it is refused, beside the scene, which then holds an empty part of the file and zeros.
#[derive(Clone, Copy)]
pub struct Opening<'a> {
    pub refusal: Option<Refusal>,
    pub scene: Opened<'a>,
}

// ---- an answer as a number and values: what C and the scripts read

/// An answer's number: 0 where the call is accepted, else the refusal's.
pub fn number<T: Copy>(answer: Result<T, Refusal>) -> u32
    ensures { result ≡ answer_number answer }
{
    match answer {
        Ok(_) => 0,
        Err(refusal) => refusal.number(),
    }
}

/// Of a voxel: 1 for solid, else 0; the height of the emptiness, 0 in a leaf, for solid and on a refusal.
pub fn solid_height(answer: Result<Voxel, Refusal>) -> [u32; 2]
    ensures { result ≡ (seen answer).values }
{
    match answer {
        Ok(Voxel::Solid) => [1, 0],
        Ok(Voxel::Empty(height)) => [0, height],
        Err(_) => [0, 0],
    }
}

/// Of a sight line: 1 where it is blocked, then the voxel that blocks it; zeros where there is none.
pub fn blocked_voxel(answer: Result<Sight, Refusal>) -> [u32; 4]
    ensures { result ≡ (sighted answer).values }
{
    match answer {
        Ok(Sight::Blocked(x, y, z)) => [1, x, y, z],
        Ok(Sight::Clear) => [0, 0, 0, 0],
        Err(_) => [0, 0, 0, 0],
    }
}

/// Of a cell: 1 for non-empty, else 0.
pub fn non_empty(answer: Result<bool, Refusal>) -> u32
    ensures { result ≡ get_or (occupied answer).values 0 0 }
{
    match answer {
        Ok(true) => 1,
        Ok(false) => 0,
        Err(_) => 0,
    }
}

/// Of anything in the way: 1 where the box holds a solid voxel, else 0; the cells entered, 0 on a refusal.
pub fn found_entered(answer: Result<Searched, Refusal>) -> (u32, u64)
    ensures found { result.0 ≡ get_or (searched answer).values 0 0 }
    ensures entered { result.1 ≡ get_or (searched answer).values 1 0 }
{
    match answer {
        Ok(searched) => (searched.found as u32, searched.entered),
        Err(_) => (0, 0),
    }
}

/// Of a packed voxel: 1 for solid, else 0; the records read; the height of the emptiness; zeros on a refusal.
pub fn solid_records_height(answer: Result<Found, Refusal>) -> [u32; 3]
    ensures { result ≡ (found answer).values }
{
    match answer {
        Ok(found) => match found.voxel {
            Voxel::Solid => [1, found.records, 0],
            Voxel::Empty(height) => [0, found.records, height],
        },
        Err(_) => [0, 0, 0],
    }
}
