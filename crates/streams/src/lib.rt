// What programs need of their input and output beside std: reading until a room is full, and saying
// what failed.

#![tactic(auto)]

ghost use Rattle.std.specs.Prelude.{◌≤◌, length, take};
ghost use Rattle.std.specs.Io.KnownBytes.{Consumes};

use std::io;
use std::io::Read;

// Puts what is read at the start of the room, and answers how many bytes that are. A failed read
// counts as the end of the input. Nothing is read behind the room.
// form kept: each read says how far the loop goes on, and std's `read_exact` does not say how many
// bytes came before the end.
pub fn read_full<R: Read>(input: &mut R, room: &mut [u8]) -> usize
    ensures in_bounds { result ≤ length room.new }
    ensures bytes { Consumes (R.remaining input.old) (R.remaining input.new) (take result room.new) }
{
    let mut count = 0;
    // No index that goes up by one: each read says how many places it filled.
    while count < room.len() {
        match input.read(&mut room[count..]) {
            Ok(0) | Err(_) => break,
            Ok(n) => count += n,
        }
    }
    count
}

// The system's words for an error, without the number that std puts behind them.
fn words_of(said: &str) -> &str {
    match said.split_once(" (os error ") {
        Some((words, _)) => words,
        None => said,
    }
}

// Writes a line to standard error: what failed, a colon and the system's words.
pub fn fail(rt: &(impl Eprint + Alloc), what: &str, error: &io::Error) -> io::Result<()> {
    let said = error.to_string(rt.alloc())?;
    let words = words_of(said.as_str());
    eprintln!(rt; "{what}: {words}")
}
