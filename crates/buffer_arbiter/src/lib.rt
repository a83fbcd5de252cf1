// One slot of a state by value in which the round robin arbiter chooses, of any state and any store. The state's arrays
// are lent to crates/arbiter_checked.
#![tactic(auto)]

ghost use Rattle.layout.specs.Calls.{arrival_in};
ghost use Rattle.buffer_arbiter.specs.Says.{ArbiterSlotSays};
ghost use Rattle.buffer_arbiter.specs.Served.{CallsServed};

use buffer::State;
use layout::{Byte, QUEUE_PLACES, REGS, Reply};

/// What the slot hands back: what `State::slot` does, and the queue that was asked, or none.
#[derive(Clone, Copy)]
pub struct ArbiterSlotted {
    pub state: State,
    pub reply: Reply,
    pub asked: Option<u8>,
}

pub fn slot(mut state: State, arrival: Option<Byte>, store: &mut [u8]) -> ArbiterSlotted
    ensures { ArbiterSlotSays state store.old (arrival_in arrival) result store.new }
{
    let mut tails = [0; QUEUE_PLACES];
    let mut heads = [0; QUEUE_PLACES];
    let mut owing = [0; QUEUE_PLACES];
    let mut lent = [0; REGS];
    layout::put_regs(&mut lent, state.regs);
    let answer = arbiter_checked::slot(
        &mut state.tail,
        &mut state.head,
        &mut state.cells,
        &mut state.firsts,
        &mut state.stored,
        &mut tails,
        &mut heads,
        &mut owing,
        &mut lent,
        arrival,
        store,
    );
    state.regs = layout::regs_in(&lent);
    ArbiterSlotted {
        state,
        reply: answer.reply,
        asked: answer.asked,
    }
}

// How long a queue waits, over any such calls, as a contract, so that it is proved with the code.
pub fn served_over_calls()
    ensures { CallsServed }
{}
