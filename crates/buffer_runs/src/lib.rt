// Many slots in one call, of any state and any store: a list of calls, or idle slots by the count. The state's arrays
// are lent to crates/run_checked, which goes from slot to slot in place.
#![tactic(auto)]

ghost use Rattle.buffer_runs.specs.Says.{RunSays, IdleSays};
ghost use Rattle.buffer_runs.specs.Demand.{MixedCallsMeet};

use buffer::State;
use layout::{QUEUE_PLACES, REGS, Reply};

// A list of slots: as many calls as there are places for their answers.
pub fn run(mut state: State, calls: &[u64], answers: &mut [u64], store: &mut [u8]) -> State
    ensures { RunSays state calls.now answers.old store.old result
        answers.new store.new }
{
    let mut tails = [0; QUEUE_PLACES];
    let mut heads = [0; QUEUE_PLACES];
    let mut owing = [0; QUEUE_PLACES];
    let mut lent = [0; REGS];
    layout::put_regs(&mut lent, state.regs);
    // Why it is refused stands in each answer.
    let _ = run_checked::run(
        &mut state.tail,
        &mut state.head,
        &mut state.cells,
        &mut state.firsts,
        &mut state.stored,
        &mut tails,
        &mut heads,
        &mut owing,
        &mut lent,
        calls,
        answers,
        store,
    );
    state.regs = layout::regs_in(&lent);
    state
}

/// How far a stretch of idle slots went: the state, how many slots, and what the last one told.
#[derive(Clone, Copy)]
pub struct Idled {
    pub state: State,
    pub passed: usize,
    pub reply: Reply,
}

// At most n idle slots: it stops with the first that is not quiet, so that no delivery, no move and no refusal is lost.
// Quiet slots pass at once, whatever their number. None at all tells nothing, whatever the state.
pub fn idle(mut state: State, n: usize, store: &mut [u8]) -> Idled
    ensures { IdleSays state store.old n result store.new }
{
    let mut tails = [0; QUEUE_PLACES];
    let mut heads = [0; QUEUE_PLACES];
    let mut owing = [0; QUEUE_PLACES];
    let stretch = run_checked::idle(
        &mut state.tail,
        &mut state.head,
        &mut state.cells,
        &mut state.firsts,
        &mut state.stored,
        &mut tails,
        &mut heads,
        &mut owing,
        state.regs,
        n,
        store,
    );
    state.regs = stretch.regs;
    Idled {
        state,
        passed: stretch.passed,
        reply: stretch.reply,
    }
}

// Demand 3 over slots, steps, runs, idle slots and slots of the arbiter's in any order, and the high marks that they
// leave, as a contract, so that it is proved with the code.
pub fn demand_3_over_mixed_calls()
    ensures { MixedCallsMeet }
{}
