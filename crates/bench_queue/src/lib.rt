// Eight benches, one coder (document 02, card 11): the state holds counts and the bench last served, no samples. A listed block counts as
// coded; its coefficients come from `fdct::fdct_quantize`, called on what its bench lends.
//
// Each call is a method by value, self in and a new state out. None has a `requires`: a state that is handed in may hold anything, and is
// tested first. The counts are of 32 bits, so that one above 65535 can be told.

#![tactic(auto)]

ghost use Rattle.std.specs.Prelude.{◌≡◌, true, ◌≤◌, ◌<◌, length, Err};
ghost use Rattle.bench_queue.specs.State.{waiting_at, most_waiting, counts_fit, in_range, served};
ghost use Rattle.bench_queue.specs.Calls.{zero_record, new_answer, deposit_answer, following, next_bench, coded_benches, after_blocks, overwritten, word_of, block_limit, turn_answer, turn_output, report_answer};
ghost use Rattle.bench_queue.specs.Told.{updated, turned, reported};

use refusals::Refusal;

#[derive(Clone, Copy, Debug, PartialEq, Eq)]
pub struct BenchQueue {
    pub benches: u32,
    // The bench last served.
    pub last: u32,
    // The blocks that wait at each bench.
    pub waiting: [u32; 8],
}

// What a call gives: the new state, and what the call answers. A refusal comes with a state too
// (card 11): the one that was given, or the zero record.
#[derive(Clone, Copy, Debug, PartialEq, Eq)]
pub struct Called<T> {
    pub state: BenchQueue,
    pub outcome: Result<T, Refusal>,
}

#[derive(Clone, Copy, Debug, PartialEq, Eq)]
pub enum Word {
    Spent,
    Idle,
}

// What an accepted turn answers.
#[derive(Clone, Copy, Debug, PartialEq, Eq)]
pub struct Coded {
    // The number of places listed.
    pub listed: u32,
    pub word: Word,
}

#[tactic(auto, unfolding(crate::specs::State::most_waiting))]
fn most_waiting(benches: u32, b: u32) -> u32
    ensures { result ≡ most_waiting benches b }
{
    if b < benches { 65535 } else { 0 }
}

// The bench after `b` in cyclic order.
#[tactic(auto, unfolding(crate::specs::Calls::following))]
fn following_bench(benches: u32, b: u32) -> u32
    requires { b < benches }
    ensures { result ≡ following benches b }
{
    if b + 1 < benches { b + 1 } else { 0 }
}

// More blocks than 4096 act as 4096.
#[tactic(auto, unfolding(crate::specs::Calls::block_limit))]
fn block_limit(l: u32) -> usize
    ensures { result ≡ block_limit l }
{
    l.min(4096) as usize
}

impl BenchQueue {
    #[tactic(auto, unfolding(crate::specs::State::counts_fit, lists::specs::Below::below))]
    fn counts_fit(self) -> bool
        ensures { result ≡ counts_fit self }
    {
        let mut fit = true;
        for b in 0..8 {
            fit &= self.waiting[b] <= most_waiting(self.benches, b as u32);
        }
        fit
    }

    #[tactic(auto, unfolding(crate::specs::State::in_range))]
    fn in_range(self) -> bool
        ensures { result ≡ in_range self }
    {
        1 <= self.benches && self.benches <= 8 && self.last < self.benches && self.counts_fit()
    }

    #[tactic(auto, unfolding(crate::specs::Calls::zero_record))]
    fn zero_record() -> BenchQueue
        ensures { result ≡ zero_record }
    {
        BenchQueue {
            benches: 0,
            last: 0,
            waiting: [0; 8],
        }
    }

    fn refused<T>(self, refusal: Refusal) -> Called<T>
        ensures state_value { result.state ≡ self }
        ensures outcome_value { result.outcome ≡ Err refusal }
    {
        Called {
            state: self,
            outcome: Err(refusal),
        }
    }

    #[tactic(auto, unfolding(crate::specs::Calls::new_answer, crate::specs::Calls::fresh, refusals::specs::Refusals::status, refusals::specs::Refusals::written))]
    pub fn new(benches: u32) -> Called<()>
        ensures { updated result ≡ new_answer benches }
    {
        if benches < 1 || 8 < benches {
            return BenchQueue::zero_record().refused(Refusal::State);
        }
        Called {
            state: BenchQueue {
                benches,
                last: benches - 1,
                waiting: [0; 8],
            },
            outcome: Ok(()),
        }
    }

    #[tactic(auto, unfolding(crate::specs::Calls::deposit_answer, crate::specs::State::queued, refusals::specs::Refusals::status, refusals::specs::Refusals::written))]
    pub fn deposit(mut self, bench: u32, blocks: u32) -> Called<()>
        ensures { updated result ≡ deposit_answer self bench blocks }
    {
        if !self.in_range() {
            return self.refused(Refusal::State);
        }
        if self.benches <= bench {
            return self.refused(Refusal::State);
        }
        let waiting = self.waiting[bench as usize];
        if 65535 - waiting < blocks {
            return self.refused(Refusal::Full);
        }
        self.waiting[bench as usize] = waiting + blocks;
        Called {
            state: self,
            outcome: Ok(()),
        }
    }

    // The next waiting bench in cyclic order after the one last served; the bench count where nobody waits.
    fn next_bench(self) -> u32
        requires last_lt_benches { self.last < self.benches }
        requires benches_bound { self.benches ≤ 8 }
        ensures { result ≡ next_bench self }
    {
        let mut b = self.last;
        for _ in 0..self.benches {
            b = following_bench(self.benches, b);
            if 0 < self.waiting[b as usize] {
                return b;
            }
        }
        self.benches
    }

    // One block of bench `b` is coded.
    #[tactic(auto, unfolding(crate::specs::State::served))]
    fn serve(mut self, b: u32) -> BenchQueue
        requires b_bound { b < 8 }
        requires b_nonzero { 0 < waiting_at self b }
        ensures { result ≡ served self b }
    {
        self.waiting[b as usize] -= 1;
        self.last = b;
        self
    }

    // Up to `l` blocks, one at a time, each listed in the next place of `out`: the new state, and how
    // many were listed.
    fn code_blocks(self, l: usize, out: &mut [u8]) -> (BenchQueue, usize)
        requires self_value { in_range self ≡ true }
        requires l_bound { l ≤ 4096 }
        requires out_len { length out.old ≡ 4096 }
        ensures state_value { result.0 ≡ after_blocks l self }
        ensures listed_value { result.1 ≡ length (coded_benches l self) }
        ensures out_after { out.new ≡ overwritten (coded_benches l self) out.old }
    {
        let mut state = self;
        for listed in 0..l {
            let b = state.next_bench();
            if state.benches <= b {
                return (state, listed);
            }
            out[listed] = b as u8;
            state = state.serve(b);
        }
        (state, l)
    }

    fn word(self) -> Word
        requires { in_range self ≡ true }
        ensures { result ≡ word_of self }
    {
        if self.next_bench() < self.benches {
            Word::Spent
        } else {
            Word::Idle
        }
    }

    #[tactic(auto, unfolding(crate::specs::Calls::turn_answer, crate::specs::Calls::turn_output, refusals::specs::Refusals::status, refusals::specs::Refusals::written))]
    pub fn turn(self, l: u32, out: &mut [u8]) -> Called<Coded>
        ensures value { turned result ≡ turn_answer self l out.old }
        ensures out_after { out.new ≡ turn_output self l out.old }
    {
        if !self.in_range() {
            return self.refused(Refusal::State);
        }
        if out.len() != 4096 {
            return self.refused(Refusal::Output);
        }
        let (state, listed) = self.code_blocks(block_limit(l), out);
        Called {
            state,
            outcome: Ok(Coded {
                listed: listed as u32,
                word: state.word(),
            }),
        }
    }

    #[tactic(auto, unfolding(crate::specs::Calls::report_answer, refusals::specs::Refusals::status, refusals::specs::Refusals::written))]
    pub fn report(self) -> Called<[u32; 8]>
        ensures { reported result ≡ report_answer self }
    {
        if self.in_range() {
            return Called {
                state: self,
                outcome: Ok(self.waiting),
            };
        }
        self.refused(Refusal::State)
    }
}
