// The commands of a script: which letter each has, how many bytes its numbers take, and the form of its line (docs/replay.md, 'Commands').
ghost use Rattle.std.specs.Prelude.{◌≤◌, length};

#[derive(Clone, Copy, PartialEq, Eq)]
pub enum Command {
    NewStore,
    Add,
    Voxel,
    Sight,
    Cell,
    Box,
    Anything,
    Kept,
    Outline,
    Pack,
    HeadsetPack,
    Load,
    SetByte,
    Check,
    HeadsetCheck,
    PackedVoxel,
    Open,
    Detail,
    SetWord,
    Sum,
}

impl Command {
    // The command of a letter.
    pub fn of(letter: u8) -> Option<Command> {
        match letter {
            b'N' => Some(Command::NewStore),
            b'A' => Some(Command::Add),
            b'V' => Some(Command::Voxel),
            b'S' => Some(Command::Sight),
            b'C' => Some(Command::Cell),
            b'B' => Some(Command::Box),
            b'Y' => Some(Command::Anything),
            b'K' => Some(Command::Kept),
            b'O' => Some(Command::Outline),
            b'P' => Some(Command::Pack),
            b'Q' => Some(Command::HeadsetPack),
            b'L' => Some(Command::Load),
            b'X' => Some(Command::SetByte),
            b'c' => Some(Command::Check),
            b'h' => Some(Command::HeadsetCheck),
            b'v' => Some(Command::PackedVoxel),
            b'q' => Some(Command::Open),
            b'D' => Some(Command::Detail),
            b'W' => Some(Command::SetWord),
            b'H' => Some(Command::Sum),
            _ => None,
        }
    }

    // The bytes of its numbers.
    pub fn numbers(self) -> usize
        ensures { result ≤ 28 }
    {
        match self {
            Command::NewStore => 8,
            Command::Add => 4,
            Command::Voxel => 16,
            Command::Sight => 28,
            Command::Cell => 20,
            Command::Box => 28,
            Command::Anything => 28,
            Command::Kept => 4,
            Command::Outline => 8,
            Command::Pack => 12,
            Command::HeadsetPack => 12,
            Command::Load => 4,
            Command::SetByte => 5,
            Command::Check => 4,
            Command::HeadsetCheck => 4,
            Command::PackedVoxel => 12,
            Command::Open => 12,
            Command::Detail => 21,
            Command::SetWord => 8,
            Command::Sum => 0,
        }
    }

    // The form of its line: words, and digits for the places of its numbers; nothing where it has no line.
    pub fn form(self) -> &'static [u8]
        ensures { length result.now ≤ 25 }
    {
        match self {
            Command::NewStore => b"new 0 store 1\n",
            Command::Add => b"add 0 1 store 2\n",
            Command::Voxel => b"voxel 0 1 2\n",
            Command::Sight => b"sight 0 1 2 3 4\n",
            Command::Cell => b"cell 0 1\n",
            Command::Box => b"box 0 1\n",
            Command::Anything => b"any 0 1 2\n",
            Command::Kept => b"kept 0 1\n",
            Command::Outline => b"outline 0 1 out 2\n",
            Command::Pack => b"pack 0 1 scratch 2 out 3\n",
            Command::HeadsetPack => b"slim 0 1 scratch 2 out 3\n",
            Command::Load => b"",
            Command::SetByte => b"",
            Command::Check => b"check 0 1 scratch 2\n",
            Command::HeadsetCheck => b"headset 0 1 scratch 2\n",
            Command::PackedVoxel => b"packed 0 1 2 3\n",
            Command::Open => b"open 0 1\n",
            Command::Detail => b"detail 0 1\n",
            Command::SetWord => b"",
            Command::Sum => b"store 0\n",
        }
    }
}
