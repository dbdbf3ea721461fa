#![tactic(auto)]

// Plays the scripts of its data, each from the start: see `script`.

use std::fs;
use std::rt::Files;

// Plays the script in a file.
fn play<R: Files + AllocGlobal>(rt: &R, name: &str) {
    match fs::read(rt, name) {
        Ok(script) => script::start(&script),
        Err(_) => {
            io::write_all(1, b"no script\n");
        }
    }
}

// Every script, one after the other.
fn main(rt: HostRuntime) {
    play(&rt, "samples.script");
    play(&rt, "orders.script");
    play(&rt, "store.script");
    play(&rt, "capacity.script");
    play(&rt, "outlines.script");
    play(&rt, "damage.script");
    play(&rt, "handmade.script");
    play(&rt, "noise.script");
    play(&rt, "pack.script");
    play(&rt, "packed.script");
    play(&rt, "check.script");
    play(&rt, "opened.script");
    play(&rt, "detail.script");
    play(&rt, "deep.script");
    play(&rt, "wide.script");
    play(&rt, "long.script");
    play(&rt, "stop.script");
    play(&rt, "emptiness.script");
    play(&rt, "sight.script");
    play(&rt, "counts.script");
    play(&rt, "any.script");
    play(&rt, "chains.script");
    play(&rt, "pointers.script");
    play(&rt, "headset.script");
    play(&rt, "questions.script");
    play(&rt, "adding.script");
    play(&rt, "packing.script");
    play(&rt, "far.script");
    play(&rt, "opening.script");
    play(&rt, "changes.script");
    play(&rt, "rules.script");
    play(&rt, "edges.script");
}
