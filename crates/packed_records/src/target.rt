// Where a pointer leads. It stands apart: the definitions that the readers of a record cite name it.
ghost use Rattle.std.specs.Prelude.{◌<◌};

// A place one list down, and the mirror under which what is there is seen.
#[derive(Clone, Copy)]
pub struct Target {
    pub mirror: u32,
    pub place: u32,
    ghost low: { mirror < 8 },
}
