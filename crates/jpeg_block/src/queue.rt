// The queue of benches (crate bench_queue). A state is ten numbers in a lent place: the bench count, the bench last served, the eight
// waiting counts. A call that is not refused leaves the new state there.
ghost use Rattle.std.specs.Prelude.{◌≡◌, [], ◌∷◌, ◌++◌, length, Some};
ghost use Rattle.refusals.specs.Refusals.{◌unless◌, ◌of◌, status, written};
ghost use Rattle.refusals.specs.Numbers.{status_of};
ghost use Rattle.bench_queue.specs.Calls.{new_tests, new_answer, deposit_answer, turn_answer, turn_output, report_answer};
ghost use Rattle.jpeg_block.specs.Queue.{state_numbers, handed_state, word_number, handed_deposit_tests, handed_turn_tests, handed_report_tests};

use crate::place::status;
use bench_queue::{BenchQueue, Word};
use refusals::Refusal;

fn handed_state(state: &[u32]) -> BenchQueue
    requires { length state.now ≡ 10 }
    ensures { result ≡ handed_state state.now }
{
    BenchQueue {
        benches: state[0],
        last: state[1],
        waiting: [
            state[2], state[3], state[4], state[5], state[6], state[7], state[8], state[9],
        ],
    }
}

fn put_state(q: BenchQueue, state: &mut [u32])
    requires { length state.old ≡ 10 }
    ensures { state.new ≡ state_numbers q }
{
    let w = q.waiting;
    let numbers = [
        q.benches, q.last, w[0], w[1], w[2], w[3], w[4], w[5], w[6], w[7],
    ];
    state.copy_from_slice(&numbers);
}

#[tactic(auto, unfolding(refusals::specs::Refusals::status, refusals::specs::Refusals::written))]
fn put_new(q: BenchQueue, state: &mut [u32]) -> Result<(), Refusal>
    ensures value { status_of result ≡ status (3 unless state.old of 10 ∷ []) }
    ensures state_after { state.new ≡ written (status_of result) (state_numbers q) state.old }
{
    Refusal::Output.unless(state.len() == 10)?;
    put_state(q, state);
    Ok(())
}

fn word_number(word: Word) -> u32
    ensures { result ≡ word_number (Some word) }
{
    match word {
        Word::Spent => 1,
        Word::Idle => 2,
    }
}

#[tactic(auto, unfolding(refusals::specs::Refusals::status, refusals::specs::Refusals::written))]
fn put_counts(waiting: &[u32; 8], counts: &mut [u32]) -> Result<(), Refusal>
    ensures value { status_of result ≡ status (3 unless counts.old of 8 ∷ []) }
    ensures counts_after { counts.new ≡ written (status_of result) waiting.now counts.old }
{
    Refusal::Output.unless(counts.len() == 8)?;
    counts.copy_from_slice(waiting);
    Ok(())
}

// Refusal 13, then 3 for the place of the state.
#[tactic(auto, unfolding(refusals::specs::Refusals::status, refusals::specs::Refusals::written))]
#[unsafe(no_mangle)]
pub extern "C" fn jpeg_block_bench_queue_new(benches: u32, state: &mut [u32]) -> u32
    ensures value { result ≡ status (new_tests benches ++ 3 unless state.old of 10 ∷ []) }
    ensures state_after { state.new ≡ written result (state_numbers (new_answer benches).state) state.old }
{
    let made = BenchQueue::new(benches);
    match made.outcome {
        Ok(()) => status(put_new(made.state, state)),
        Err(refusal) => refusal.number(),
    }
}

// Refusals 13 and 14.
#[tactic(auto, unfolding(refusals::specs::Refusals::status, refusals::specs::Refusals::written))]
#[unsafe(no_mangle)]
pub extern "C" fn jpeg_block_bench_queue_deposit(state: &mut [u32], bench: u32, blocks: u32) -> u32
    ensures value { result ≡ status (handed_deposit_tests state.old bench blocks) }
    ensures state_after { state.new ≡ written result (state_numbers (deposit_answer (handed_state state.old) bench blocks).state) state.old }
{
    if state.len() != 10 {
        return Refusal::State.number();
    }
    let deposited = handed_state(state).deposit(bench, blocks);
    match deposited.outcome {
        Ok(()) => {
            put_state(deposited.state, state);
            0
        }
        Err(refusal) => refusal.number(),
    }
}

// Refusal 13, then 3 for the output and for the place of the answer, which are the number of blocks listed and the word.
#[tactic(auto, unfolding(refusals::specs::Refusals::status, refusals::specs::Refusals::written))]
#[unsafe(no_mangle)]
pub extern "C" fn jpeg_block_bench_queue_turn(
    state: &mut [u32],
    l: u32,
    out: &mut [u8],
    answer: &mut [u32],
) -> u32
    ensures value { result ≡ status (handed_turn_tests state.old out.old answer.old) }
    ensures state_after { state.new ≡ written result (state_numbers (turn_answer (handed_state state.old) l out.old).state) state.old }
    ensures out_after { out.new ≡ written result (turn_output (handed_state state.old) l out.old) out.old }
    ensures answer_after { answer.new ≡ written result ((turn_answer (handed_state state.old) l out.old).listed ∷ word_number (turn_answer (handed_state state.old) l out.old).word ∷ []) answer.old }
{
    if state.len() != 10 {
        return Refusal::State.number();
    }
    let q = handed_state(state);
    match q.report().outcome {
        Ok(_) => {}
        Err(refusal) => return refusal.number(),
    }
    if answer.len() != 2 {
        return Refusal::Output.number();
    }
    let turned = q.turn(l, out);
    match turned.outcome {
        Ok(coded) => {
            put_state(turned.state, state);
            // One by one: an array of them would be stored singly and read back at once to be
            // copied, and that waits for the stores.
            answer[0] = coded.listed;
            answer[1] = word_number(coded.word);
            0
        }
        Err(refusal) => refusal.number(),
    }
}

// Refusal 13, then 3 for the place of the counts.
#[tactic(auto, unfolding(refusals::specs::Refusals::status, refusals::specs::Refusals::written))]
#[unsafe(no_mangle)]
pub extern "C" fn jpeg_block_bench_queue_report(state: &[u32], counts: &mut [u32]) -> u32
    ensures value { result ≡ status (handed_report_tests state.now counts.old) }
    ensures counts_after { counts.new ≡ written result (report_answer (handed_state state.now)).waiting counts.old }
{
    if state.len() != 10 {
        return Refusal::State.number();
    }
    match handed_state(state).report().outcome {
        Ok(waiting) => status(put_counts(&waiting, counts)),
        Err(refusal) => refusal.number(),
    }
}
