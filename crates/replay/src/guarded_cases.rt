// The guarded quantizer and its divisors: 64 samples, 64 quantizers, and the divisors or the table
// that they are made from; the record of DC, AC places and bitmap. The Rust's record has no
// divisors: those are held to the table.
use crate::file::replay;
use crate::numbers::{bytes_of_f64, f64_of, numbers, put_each};
use guarded_quantizer::{QuantizationDivisors, QuantizedBlock};
use std::io;
use std::rt::Files;

fn record(block: &QuantizedBlock) -> [u8; 138] {
    let mut record = [0u8; 138];
    record[..2].copy_from_slice(&block.dc.to_le_bytes());
    put_each(
        record[2..130].as_chunks_mut().0,
        &block.ac_coefficients,
        i16::to_le_bytes,
    );
    record[130..].copy_from_slice(&block.nonzero_ac.to_le_bytes());
    record
}

// None too where the record does not carry the table handed over.
fn quantized(samples: &[u8], quant: &[u8], divisors: QuantizationDivisors) -> Option<[u8; 138]> {
    let block = transform::fdct_quantize(samples, quant, divisors).ok()?;
    if block.divisors.as_slice() == quant {
        Some(record(&block))
    } else {
        None
    }
}

// The divisors of a table.
fn divisors_of(quant: &[u8]) -> Option<QuantizationDivisors> {
    fdct_f64::quantization_divisors(quant).ok()
}

pub fn replay_all(rt: &(impl Files + Print + Eprint + Alloc)) -> io::Result<()> {
    replay(rt, "quantization_divisors", |case: &[u8; 64]| {
        let divisors = divisors_of(case)?;
        let mut answer = [0u8; 512];
        put_each(
            answer.as_chunks_mut().0,
            &divisors.reciprocals,
            bytes_of_f64,
        );
        Some(answer)
    })?;
    replay(rt, "transform_fdct_quantize", |case: &[u8; 192]| {
        quantized(&case[..64], &case[64..128], divisors_of(&case[128..])?)
    })?;
    replay(rt, "transform_fdct_quantize_handed", |case: &[u8; 640]| {
        let reciprocals = numbers(case[128..].as_chunks().0, f64_of);
        quantized(
            &case[..64],
            &case[64..128],
            QuantizationDivisors { reciprocals },
        )
    })
}
