// Prints an answer: its refusal and its numbers, where equal ones that follow each other are their
// count and the number.
use block::Clamped;
use clamping::Rule;
use refusals::Refusal;
use std::io;

pub fn show_refusal<T: Drop>(rt: &impl Print, got: &Result<T, Refusal>) -> io::Result<()> {
    if let Err(refusal) = got {
        print!(rt; " | {refusal}")?;
    }
    Ok(())
}

pub fn show(rt: &impl Print, values: &[i32]) -> io::Result<()> {
    for run in values.chunk_by(|a, b| a == b) {
        match run {
            [] => {}
            [value] => print!(rt; " | {value}")?,
            [value, ..] => {
                let count = run.len();
                print!(rt; " | {count} of {value}")?;
            }
        }
    }
    Ok(())
}

pub fn show_rule(rt: &impl Print, rule: Rule) -> io::Result<()> {
    match rule {
        Rule::Raised => print!(rt; " | raised"),
        Rule::Lowered => print!(rt; " | lowered"),
        Rule::Within => print!(rt; " | within"),
    }
}

// How many samples were raised to 0, and how many lowered to 255: none of a refused block.
pub fn show_counts(rt: &impl Print, got: Result<Clamped, Refusal>) -> io::Result<()> {
    let (raised, lowered) = got.map_or((0, 0), |counts| (counts.raised, counts.lowered));
    print!(rt; " | raised {raised}, lowered {lowered}")
}
