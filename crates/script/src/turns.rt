// A script's commands, one after the other.
ghost use Rattle.std.specs.Prelude.{◌+◌, ◌<◌, ◌≤◌, length, IfSome};
ghost use Rattle.script.specs.Steps.{Inside, Parts};

use crate::asks::{Asked, Memory, read};
use crate::changes::taken;
use crate::command::Command;
use crate::sums::sum_words;
use crate::text::{put, say};
use crate::{calls, changes, scenes};

// How far a script is played: the place of the next command, the words of the store, the bytes of the current packed file,
// and the bytes of text not written yet.
#[derive(Clone, Copy)]
pub struct Played {
    pub at: usize,
    pub words: usize,
    pub size: usize,
    pub used: usize,
}

// Plays a command on the memory that it is lent, and answers the numbers of its lines. `bytes` stand in the script behind its
// numbers.
fn play_command(
    command: Command,
    given: &[u8],
    bytes: &[u8],
    store: &mut [u32],
    file: &mut [u8],
    out: &mut [u8],
    scratch: &mut [u32],
) -> [u64; 6] {
    match command {
        Command::NewStore => changes::new_store(given, store),
        Command::Add => changes::add(bytes, store),
        Command::Load => changes::load(bytes, file),
        Command::SetByte => changes::set_byte(given, file),
        Command::SetWord => changes::set_word(given, store),
        Command::Voxel => calls::voxel(given, store),
        Command::Sight => calls::sight(given, store),
        Command::Cell => calls::cell(given, store),
        Command::Box => calls::box_count(given, store),
        Command::Anything => calls::anything(given, store),
        Command::Kept => calls::kept(given, store),
        Command::Outline => calls::outline_out(given, store, out),
        Command::Pack => calls::pack(given, store, scratch, out),
        Command::HeadsetPack => calls::headset_pack(given, store, scratch, out),
        Command::PackedVoxel => scenes::packed_voxel(given, file),
        Command::Open => scenes::open_and_ask(given, file),
        Command::Check => scenes::check(file, out),
        Command::HeadsetCheck => scenes::headset_check(file, out),
        Command::Detail => scenes::detail(given),
        Command::Sum => [sum_words(store), 0, 0, 0, 0, 0],
    }
}

// Plays a command on the part of each memory that it asks for.
fn lend(
    command: Command,
    given: &[u8],
    asked: Asked,
    store: &mut [u32],
    file: &mut [u8],
    out: &mut [u8],
    scratch: &mut [u32],
) -> [u64; 6]
    requires { Parts asked given.now store.old file.old out.old scratch.old }
{
    let from = asked.from;
    let end = asked.end;
    let words = asked.part.words;
    let size = asked.part.size;
    let room = asked.part.room;
    let spare = asked.part.scratch;
    play_command(
        command,
        given,
        &given[from..end],
        &mut store[..words],
        &mut file[..size],
        &mut out[..room],
        &mut scratch[..spare],
    )
}

// Plays the next command; none where its letter is none, or it is cut short or past a limit.
fn turn(
    script: &[u8],
    played: Played,
    store: &mut [u32],
    file: &mut [u8],
    out: &mut [u8],
    scratch: &mut [u32],
    text: &mut [u8],
) -> Option<Played>
    requires inside { Inside script.now store.old file.old text.old played.at played.words played.size played.used }
    requires at_in_bounds { played.at < length script.now }
    ensures inside_after { IfSome result (λ next. Inside script.now store.old file.old text.old next.at next.words next.size 0) }
    ensures on { IfSome result (λ next. (played.at < next.at) × (next.used ≤ length text.old)) }
{
    let start = played.at + 1;
    let given = &script[start..];
    let most = Memory {
        words: store.len(),
        size: file.len(),
        room: out.len(),
        scratch: scratch.len(),
    };
    let command = Command::of(script[played.at])?;
    let asked = read(command, given, played.words, played.size, most)?;
    let numbers = lend(command, given, asked, store, file, out, scratch);
    Some(Played {
        at: start + asked.end,
        words: asked.part.words,
        size: taken(command, numbers, out, file, asked.part.size),
        used: say(text, played.used, command, numbers),
    })
}

// The most bytes of one command's lines.
const MOST: usize = 1000;

// Writes the text where there may be no room for another line, and answers how much is left of it.
fn flushed(text: &[u8], used: usize) -> usize
    requires { (used ≤ length text.now) × (1000 ≤ length text.now) }
    ensures { result + 1000 ≤ length text.now }
{
    if text.len() - used >= MOST {
        return used;
    }
    io::write_all(1, &text[..used]);
    0
}

// Writes the text with `stop` behind it.
fn say_stop(text: &mut [u8], used: usize)
    requires { (used ≤ length text.old) × (1000 ≤ length text.old) }
{
    let stopped = put(text, flushed(text, used), b"stop\n");
    io::write_all(1, &text[..stopped]);
}

// Plays a script on this memory and writes what it prints. Each turn says where the next command stands: the loop goes by that.
pub fn play(
    script: &[u8],
    store: &mut [u32],
    file: &mut [u8],
    out: &mut [u8],
    scratch: &mut [u32],
    text: &mut [u8],
)
    requires { 1000 ≤ length text.old }
{
    let mut played = Played {
        at: 0,
        words: 0,
        size: 0,
        used: 0,
    };
    while played.at < script.len() {
        let Some(next) = turn(script, played, store, file, out, scratch, text) else {
            say_stop(text, played.used);
            return;
        };
        played = Played {
            used: flushed(text, next.used),
            ..next
        };
    }
    let used = played.used;
    io::write_all(1, &text[..used]);
}
