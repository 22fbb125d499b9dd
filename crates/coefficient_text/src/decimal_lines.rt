// Eight lines of eight numbers in decimal (document 01, "Added by design").
ghost use Rattle.std.specs.Prelude.{◌+◌, ◌^◌, ◌≤◌, ◌<◌, ◌≡◌, length};
ghost use Rattle.coefficient_text.specs.Stores.{Wrote};
ghost use Rattle.coefficient_text.specs.Lines.{digits, numeral, separator, numbers};

// Places of an output: 64 numbers of at most six bytes ("-32768", any number of 16 bits), each with
// the space or the newline that follows it.
pub const LINES: usize = 448;

// The digits of a number below 10^k: those above the last where there are any, then the last.
fn put_digits(out: &mut [u8], at: usize, k: usize, n: u64) -> usize
    requires k_nonzero { 0 < k }
    requires n_bound { n < 10 ^ k }
    requires k_in_bounds { at + k ≤ length out.old }
    ensures { Wrote k out.old at (digits k n) out.new result }
{
    let mut last = at;
    if n >= 10 {
        last = put_digits(out, at, k - 1, n / 10);
    }
    out[last] = 48 + ((n % 10) as u8);
    last + 1
}

fn put_decimal(out: &mut [u8], at: usize, z: i16) -> usize
    requires { at + 6 ≤ length out.old }
    ensures { Wrote 6 out.old at (numeral z) out.new result }
{
    let size = (z as i64).unsigned_abs();
    if z < 0 {
        out[at] = b'-';
        return put_digits(out, at + 1, 5, size);
    }
    put_digits(out, at, 5, size)
}

fn separator_of(n: usize) -> u8
    ensures { result ≡ separator n }
{
    if n % 8 == 7 {
        return b'\n';
    }
    b' '
}

pub fn put_numbers(cs: &[i16; 64], out: &mut [u8]) -> usize
    requires { length out.old ≡ 448 }
    ensures { Wrote 448 out.old 0 (numbers cs.now 64) out.new result }
{
    let mut at = 0;
    for n in 0..64 {
        at = put_decimal(out, at, cs[n]);
        out[at] = separator_of(n);
        at += 1;
    }
    at
}
