// The same nine slots, each judged and then by its steps in turn: a step is told by the state that the one before it
// left. In a slot that swaps, the arrival joins after the request.
#![tactic(auto)]

use buffer::State;
use layout::{Byte, Call};
use std::io::Print;

// One slot: prints what it moved, and hands its state on.
fn in_steps(to: &impl Print, t: u64, state: State, call: Call, store: &mut [u8]) -> State {
    let judged = match state.judge(call, store.len()) {
        Ok(judged) => judged,
        Err(refusal) => {
            example_print::refusal(to, t, refusal);
            return state;
        }
    };
    // What is left of the call: a half that is dropped never came.
    let Call { arrival, request } = judged.call;
    // Whether the slot swaps, by the state as it is handed in.
    let swapping = buffer_choices::swaps(state, judged.call);
    // 1. The oldest cell leaves.
    let first = state.deliver();
    // 2. The arriving byte joins the tail, or waits for the request to make room.
    let early = slot_plan::early_arrival(swapping, arrival);
    let arrived = first.state.arrive(early);
    // 3. The request takes the youngest cell.
    let owing = buffer_choices::owes_request(arrived, request);
    let asked = arrived.ask(owing, request);
    // 2, where it has waited.
    let late = slot_plan::late_arrival(swapping, arrival);
    let filled = asked.arrive(late);
    // 4. First a write, then a read, if the phase is b - 1.
    let written = buffer_choices::to_write(filled);
    let wrote = filled.write(written, store);
    let read = buffer_choices::to_read(wrote).map(|block| block.queue);
    let refilled = wrote.read(read, store);
    example_print::moves(to, t, first.delivery, written, read);
    // 5. The phase rises by one.
    refilled.turn()
}

// A call by a byte's queue and value, and the queue that a byte is requested of.
fn call(byte: Option<(u8, u8)>, request: Option<u8>) -> Call {
    let arrival = byte.map(|(queue, value)| Byte { queue, value });
    Call { arrival, request }
}

fn main(rt: HostRuntime) {
    let fresh = match State::make(2, 2, 4) {
        Ok(fresh) => fresh,
        Err(refusal) => {
            example_print::refusal(&rt, 0, refusal);
            return;
        }
    };
    let mut store = [0u8; 16];
    let s0 = in_steps(&rt, 0, fresh, call(Some((0, b'a')), None), &mut store);
    let s1 = in_steps(&rt, 1, s0, call(Some((0, b'b')), None), &mut store);
    let s2 = in_steps(&rt, 2, s1, call(Some((1, b'x')), Some(0)), &mut store);
    let s3 = in_steps(&rt, 3, s2, call(Some((1, b'y')), Some(1)), &mut store);
    let s4 = in_steps(&rt, 4, s3, call(None, Some(0)), &mut store);
    let s5 = in_steps(&rt, 5, s4, call(None, Some(1)), &mut store);
    let s6 = in_steps(&rt, 6, s5, Call::default(), &mut store);
    let s7 = in_steps(&rt, 7, s6, Call::default(), &mut store);
    in_steps(&rt, 8, s7, Call::default(), &mut store);
}
