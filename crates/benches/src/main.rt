// A worked history of the bench queue (document 02, card 11): three benches, each with a table and
// samples of its own. Every block that a turn lists is coded by the block entry on what its bench
// lends. Prints each call with its status, each coded block with four of its coefficients, those of
// u and v 0 and 1. What cannot be written is left out: the exit status is 0 all the same.

#![tactic(auto)]

ghost use Rattle.std.specs.Prelude.{◌≤◌};

use bench_queue::{BenchQueue, Word};
use fdct::fdct_quantize;
use refusals::Refusal;
use std::{array, io};

// Bench b's samples: a ramp across, brighter with b and with the place k in the turn's list.
fn samples(b: u8, k: u8) -> [u8; 64] {
    array::from_fn(|n| 64 + 8 * (n % 8) as u8 + 8 * (b % 8) + 4 * (k % 8))
}

fn code_block(rt: &impl Print, b: u8, k: u8) -> io::Result<()> {
    let table = [8 * (b % 8) + 8; 64];
    let mut coefficients = [0i16; 64];
    let _ = fdct_quantize(&samples(b, k), &table, &mut coefficients);
    let c = &coefficients;
    println!(rt; "  bench {b}: {} {} {} {}", c[0], c[1], c[8], c[9])
}

fn code_listed(rt: &impl Print, listed: &[u8]) -> io::Result<()> {
    for (i, b) in listed.iter().enumerate() {
        code_block(rt, *b, (i % 8) as u8)?;
    }
    Ok(())
}

fn word(w: Word) -> &'static str {
    match w {
        Word::Spent => ", spent",
        Word::Idle => ", idle",
    }
}

// 0, or the number of the refusal.
fn status<T: Drop>(outcome: &Result<T, Refusal>) -> u32 {
    match outcome {
        Ok(_) => 0,
        Err(refusal) => refusal.number(),
    }
}

fn deposit(rt: &impl Print, q: BenchQueue, bench: u32, blocks: u32) -> io::Result<BenchQueue> {
    let deposited = q.deposit(bench, blocks);
    let status = status(&deposited.outcome);
    println!(rt; "deposit at bench {bench}, blocks {blocks}: {status}")?;
    Ok(deposited.state)
}

// A turn on the first `places` of 4096 places.
fn turn(rt: &impl Print, q: BenchQueue, l: u32, places: usize) -> io::Result<BenchQueue>
    requires { places ≤ 4096 }
{
    let mut out = [0u8; 4096];
    let turned = q.turn(l, &mut out[..places]);
    let status = status(&turned.outcome);
    let listed = turned.outcome.map_or(0, |coded| coded.listed);
    let word = turned.outcome.map_or("", |coded| word(coded.word));
    println!(rt; "turn of {l}: {status}, listed {listed}{word}")?;
    code_listed(rt, &out[..(listed as usize).min(4096)])?;
    Ok(turned.state)
}

fn report(rt: &impl Print, q: BenchQueue) -> io::Result<()> {
    let reported = q.report();
    let status = status(&reported.outcome);
    print!(rt; "report: {status}, waiting")?;
    for count in reported.outcome.unwrap_or([0; 8]) {
        print!(rt; " {count}")?;
    }
    println!(rt)
}

fn made(rt: &impl Print, benches: u32) -> io::Result<BenchQueue> {
    let new = BenchQueue::new(benches);
    let status = status(&new.outcome);
    println!(rt; "new of {benches}: {status}")?;
    Ok(new.state)
}

fn history(rt: &impl Print) -> io::Result<()> {
    let q = made(rt, 3)?;
    let q = deposit(rt, q, 0, 2)?;
    let q = deposit(rt, q, 2, 1)?;
    let q = turn(rt, q, 2, 4096)?;
    let q = deposit(rt, q, 1, 1)?;
    report(rt, q)?;
    let q = turn(rt, q, 5000, 4096)?;
    let q = deposit(rt, q, 3, 1)?;
    let q = deposit(rt, q, 2, 65535)?;
    let q = deposit(rt, q, 2, 1)?;
    let q = turn(rt, q, 0, 4096)?;
    let q = turn(rt, q, 1, 4095)?;
    report(rt, q)?;
    let q = made(rt, 9)?;
    let q = turn(rt, q, 1, 4095)?;
    report(rt, q)
}

fn main(rt: HostRuntime) {
    let _ = history(&rt);
}
