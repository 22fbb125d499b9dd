// The header of a PGM picture (document 02, card 2; Netpbm's PGM page), byte by byte.
//
// A `Reader` is what the bytes before came to, and `step` takes one more, so that a caller reads no byte behind the header. A number
// above 4096 is held as any such number, at most 40969, however many digits it has: nothing overflows, and no answer tells them
// apart (`behind-like` of proofs/Text.antt).

#![tactic(auto)]

ghost use Rattle.std.specs.Prelude.{◌≡◌, true, false, List, ◌∷◌, ℕ, ◌+◌, ◌*◌, ◌-◌};
ghost use Rattle.pgm.specs.Header.{Text, byte as Text·byte, is_space, is_digit, in_comment, header_of};
ghost use Rattle.pgm.specs.Header.{whole as Header·whole};
ghost use Rattle.pgm.specs.Reader.{Like, told, behind, from, following, reads, goes_on};

use plane::is_measured;
use refusals::Refusal;

// The most bytes of a header.
pub const LIMIT: usize = 65536;

// What a header says; `length` is its own in bytes, with the delimiter.
#[derive(Clone, Copy, Debug, PartialEq, Eq)]
pub struct Header {
    pub width: usize,
    pub height: usize,
    pub length: usize,
}

// Which number of the header, with the ones before it.
#[derive(Clone, Copy)]
pub enum Field {
    Width,
    Height(usize),
    Maxval(usize, usize),
}

// How far a header is read, comments left out: nothing, `P`, `P5`, white space before a number, digits of a number with their value.
#[derive(Clone, Copy)]
pub enum Place {
    Start,
    P,
    Magic,
    Before(Field),
    In(Field, usize),
}

#[derive(Clone, Copy)]
pub struct Reader {
    place: Place,
    // Whether a comment is open.
    comment: bool,
    // Bytes read.
    count: usize,
}

#[derive(Clone, Copy)]
pub enum Step {
    More(Reader),
    Done(Header),
}

#[tactic(auto, unfolding(crate::specs::Header::is_space))]
fn is_space(b: u8) -> bool
    ensures { result ≡ is_space b }
{
    matches!(b, b' ' | b'\t' | b'\r' | b'\n')
}

#[tactic(auto, unfolding(crate::specs::Header::is_digit))]
fn is_digit(b: u8) -> bool
    ensures { result ≡ is_digit b }
{
    b.is_ascii_digit()
}

// Whether a comment is still open behind a byte of it.
#[tactic(auto, unfolding(crate::specs::Header::in_comment))]
fn stays_open(b: u8) -> bool
    ensures { result ≡ in_comment true b }
{
    !matches!(b, b'\r' | b'\n')
}

// A number with one digit more.
fn appended(v: usize, b: u8) -> usize
    requires { is_digit b ≡ true }
    ensures { Like result (10 * v + (b - 48)) }
{
    if v > 4096 {
        return v;
    }
    v * 10 + usize::from(b - b'0')
}

#[tactic(auto, unfolding(crate::specs::Header::whole, crate::specs::Header::verdict))]
fn whole(width: usize, height: usize, maxval: usize, length: usize) -> Result<Header, Refusal>
    ensures { told result ≡ Header·whole width height maxval length }
{
    Refusal::Picture.unless(maxval == 255)?;
    Refusal::Measure.unless(is_measured(width))?;
    Refusal::Measure.unless(is_measured(height))?;
    Ok(Header {
        width,
        height,
        length,
    })
}

// The header goes on behind `count` bytes, unless they are as many as it may have: then no further byte is read.
fn go_on(place: Place, comment: bool, count: usize) -> Result<Step, Refusal>
    ensures { (bs : List ℕ) → from place (following comment count bs) ≡ goes_on result bs }
{
    Refusal::Picture.unless(count < LIMIT)?;
    Ok(Step::More(Reader {
        place,
        comment,
        count,
    }))
}

// White space behind a number, byte n of the input.
fn behind_number(field: Field, v: usize, n: usize) -> Result<Step, Refusal>
    ensures { (b : ℕ) (bs : List ℕ) → is_space b ≡ true → behind field v (Text·byte b n (following false n bs)) ≡ goes_on result bs }
{
    match field {
        Field::Width => go_on(Place::Before(Field::Height(v)), false, n),
        Field::Height(w) => go_on(Place::Before(Field::Maxval(w, v)), false, n),
        Field::Maxval(w, h) => Ok(Step::Done(whole(w, h, v, n)?)),
    }
}

// Byte n of the input, which stands in no comment.
fn step_bare(place: Place, b: u8, n: usize) -> Result<Step, Refusal>
    ensures { (bs : List ℕ) → from place (Text·byte b n (following false n bs)) ≡ goes_on result bs }
{
    match place {
        Place::Start if b == b'P' => go_on(Place::P, false, n),
        Place::P if b == b'5' => go_on(Place::Magic, false, n),
        Place::Magic if is_space(b) => go_on(Place::Before(Field::Width), false, n),
        Place::Before(f) if is_space(b) => go_on(Place::Before(f), false, n),
        Place::Before(f) if is_digit(b) => go_on(Place::In(f, appended(0, b)), false, n),
        Place::In(f, v) if is_digit(b) => go_on(Place::In(f, appended(v, b)), false, n),
        Place::In(f, v) if is_space(b) => behind_number(f, v, n),
        _ => Err(Refusal::Picture),
    }
}

impl Reader {
    // Before the first byte.
    pub fn new() -> Self
        ensures { (bs : List ℕ) → reads result bs ≡ header_of bs }
    {
        Reader {
            place: Place::Start,
            comment: false,
            count: 0,
        }
    }

    // One byte more: whatever bytes follow it, the step leads to the answer of this reader.
    pub fn step(self, b: u8) -> Result<Step, Refusal>
        ensures { (bs : List ℕ) → reads self (b ∷ bs) ≡ goes_on result bs }
    {
        Refusal::Picture.unless(self.count < LIMIT)?;
        let n = self.count + 1;
        if self.comment {
            return go_on(self.place, stays_open(b), n);
        }
        if b == b'#' {
            return go_on(self.place, true, n);
        }
        step_bare(self.place, b, n)
    }
}

// The header of a whole input.
pub fn header_of(input: &[u8]) -> Result<Header, Refusal>
    ensures { told result ≡ header_of input.now }
{
    let mut reader = Reader::new();
    for b in input {
        match reader.step(*b)? {
            Step::More(r) => reader = r,
            Step::Done(header) => return Ok(header),
        }
    }
    Err(Refusal::Picture)
}
