// The nine slots of the README's table, a call of the buffer for each.
#![tactic(auto)]

use buffer::State;
use layout::{Byte, Call};
use std::io::Print;

// One slot: prints what it did, and hands its state on. A refused slot did not happen.
fn one_slot(to: &impl Print, t: u64, state: State, call: Call, store: &mut [u8]) -> State {
    let slotted = state.slot(call, store);
    match slotted.reply {
        Ok(outcome) => {
            let read = outcome.read.map(|block| block.queue);
            example_print::moves(to, t, outcome.delivery, outcome.written, read);
        }
        Err(refusal) => example_print::refusal(to, t, refusal),
    }
    slotted.state
}

// A call by a byte's queue and value, and the queue that a byte is requested of.
fn call(byte: Option<(u8, u8)>, request: Option<u8>) -> Call {
    let arrival = byte.map(|(queue, value)| Byte { queue, value });
    Call { arrival, request }
}

fn main(rt: HostRuntime) {
    let fresh = match State::make(2, 2, 4) {
        Ok(fresh) => fresh,
        Err(refusal) => {
            example_print::refusal(&rt, 0, refusal);
            return;
        }
    };
    let mut store = [0u8; 16];
    let s0 = one_slot(&rt, 0, fresh, call(Some((0, b'a')), None), &mut store);
    let s1 = one_slot(&rt, 1, s0, call(Some((0, b'b')), None), &mut store);
    let s2 = one_slot(&rt, 2, s1, call(Some((1, b'x')), Some(0)), &mut store);
    let s3 = one_slot(&rt, 3, s2, call(Some((1, b'y')), Some(1)), &mut store);
    let s4 = one_slot(&rt, 4, s3, call(None, Some(0)), &mut store);
    let s5 = one_slot(&rt, 5, s4, call(None, Some(1)), &mut store);
    let s6 = one_slot(&rt, 6, s5, Call::default(), &mut store);
    let s7 = one_slot(&rt, 7, s6, Call::default(), &mut store);
    one_slot(&rt, 8, s7, Call::default(), &mut store);
}
