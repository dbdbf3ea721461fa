// Where a walk stands, and where it ends.
ghost use Rattle.std.specs.Prelude.{◌<◌};

// A cell of a list, seen under a mirror.
#[derive(Clone, Copy)]
pub struct Image {
    pub number: u32,
    pub mirror: u32,
    pub ghost mirrored: { mirror < 8 },
}

// Where a walk from a cell down to a list ends.
#[derive(Clone, Copy)]
pub enum End {
    // The child of this height is absent.
    Absent(u32),
    // This cell of the list asked for.
    At(Image),
}
