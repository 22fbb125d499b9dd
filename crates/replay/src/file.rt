// A function's file: a header, and records of the function's inputs and its answer.
use crate::compare::agrees;
use std::fs::File;
use std::io;
use std::io::Read;
use std::rt::Files;
use streams::{fail, read_full};

// A file starts with this many bytes of text.
const HEADER: usize = 256;

// A proved loop has to end, and nothing says that a file does. No file holds so many records.
const MOST: u64 = 1_000_000;

// A part of a record, its inputs or its answer: an array of bytes.
pub trait Part: Default + Drop {
    fn bytes(&self) -> &[u8];

    fn bytes_mut(&mut self) -> &mut [u8];
}

impl<const N: usize> Part for [u8; N] {
    fn bytes(&self) -> &[u8] {
        self
    }

    fn bytes_mut(&mut self) -> &mut [u8] {
        self
    }
}

// Whether the next record agrees, and None at the end of the file. Runs the function on the
// record's inputs, and reads the recorded answer only then. A record that is cut short differs.
fn next<I: Part, O: Part, F: Fn(&I) -> Option<O>>(file: &mut impl Read, call: &F) -> Option<bool>
    requires { F.IsAlwaysCallable call.now }
{
    let mut inputs = I::default();
    let got = read_full(file, inputs.bytes_mut());
    let answer = call(&inputs);
    let mut recorded = O::default();
    let room = recorded.bytes_mut();
    let held = read_full(file, room);
    if got == 0 && held == 0 {
        return None;
    }
    Some(agrees(&room[..held], answer.as_ref().map(O::bytes)))
}

fn report(rt: &impl Print, name: &str, cases: u64, differences: u64) -> io::Result<()> {
    println!(rt; "{name} {cases} cases {differences} differences")
}

// Runs the records of an opened file, and says how many there are and how many differ.
fn count<I: Part, O: Part, F: Fn(&I) -> Option<O>>(
    rt: &impl Print,
    name: &str,
    file: &mut impl Read,
    call: &F,
) -> io::Result<()>
    requires { F.IsAlwaysCallable call.now }
{
    let mut cases: u64 = 0;
    let mut differences: u64 = 0;
    for _ in 0..MOST {
        let Some(same) = next(file, call) else { break };
        cases += 1;
        if !same {
            differences += 1;
        }
    }
    report(rt, name, cases, differences)
}

// The file of a function has its name. One that cannot be read has no records. A call that refuses
// answers None.
pub fn replay<I: Part, O: Part, F: Fn(&I) -> Option<O>>(
    rt: &(impl Files + Print + Eprint + Alloc),
    name: &str,
    call: F,
) -> io::Result<()>
    requires { F.IsAlwaysCallable call }
{
    match File::open(rt, name) {
        Ok(mut file) => {
            let mut header = [0u8; HEADER];
            read_full(&mut file, &mut header);
            count(rt, name, &mut file, &call)
        }
        Err(error) => {
            fail(rt, name, &error)?;
            report(rt, name, 0, 0)
        }
    }
}
