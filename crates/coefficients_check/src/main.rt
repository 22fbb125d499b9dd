// Prints what `coefficient_text` answers and writes for known input: the files of data/ that `args`
// names, and at the end what other numbers of places give. A case has a line, its name, the bytes of
// input, the places of output, the status and the bytes of text, and then the output and what lies
// behind it, dots where the call wrote nothing. The stdout beside src/ holds the coefficients as
// computed apart from this code, from document 01's definition.

#![tactic(auto)]

ghost use Rattle.std.specs.Prelude.{◌≤◌, ◌≡◌, length};

use coefficient_text::{TEXT, coefficient_text};
use std::fs::File;
use std::rt::{Env, Files};
use std::{env, io};
use streams::read_full;

// One place more than an output has, and a newline.
const ROOM: usize = 450;

// The most bytes that are read of a file.
const INPUT: usize = 4096;

// No byte of a text is a dot.
fn dots() -> [u8; ROOM]
    ensures { 450 ≡ length result }
{
    let mut room = [b'.'; ROOM];
    room[449] = b'\n';
    room
}

// A file that cannot be read has no byte, and the line says so.
fn case(rt: &(impl Files + Print), name: &str, places: usize) -> io::Result<()>
    requires { places ≤ 449 }
{
    let mut input = [0u8; INPUT];
    let read = File::open(rt, name).map_or(0, |mut file| read_full(&mut file, &mut input));
    let mut room = dots();
    let got = coefficient_text(&input[..read], &mut room[..places]);
    let status = got.map_or_else(|refusal| refusal.number(), |_| 0);
    let count = got.unwrap_or(0);
    println!(rt; "{name} {read} {places} {status} {count}")?;
    rt.write_all(&room)
}

fn each_named(rt: &(impl Files + Env + Print + Alloc)) -> io::Result<()> {
    for name in env::args(rt)?.skip(1) {
        case(rt, name.as_str(), TEXT)?;
    }
    Ok(())
}

// The output's length is tested first.
fn main(rt: HostRuntime) -> io::Result<()> {
    each_named(&rt)?;
    case(&rt, "white", 447)?;
    case(&rt, "white", 449)?;
    case(&rt, "76_bytes", 0)
}
