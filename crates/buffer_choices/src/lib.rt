// What the steps of a slot must be told, of any state by value: whether the slot swaps, whether a request is Owed, the
// queue to write, the queue to read and its slots left. With the steps in turn they make the slot. Sizes, fills and
// queue numbers may be anything: every number is read as some state.
#![tactic(auto)]

ghost use Rattle.std.specs.Prelude.{◌≡◌, ℕ, ◌+◌, ◌-◌, ◌*◌, ◌≤◌, min, eqb, length};
ghost use Rattle.std.proofs.Math.Option.{some};
ghost use Rattle.model.specs.State.{tail_bytes};
ghost use Rattle.model.specs.Slot.{is_owed, swaps, fullest, queue_to_write, refill_by, refill_of};
ghost use Rattle.layout.specs.Lengths.{tail_places, head_places, cell_places};
ghost use Rattle.layout.specs.Entries.{bytes_in, counts_in, cells_in};
ghost use Rattle.layout.specs.Calls.{chosen_in, arrival_in, request_in, refill_in, call_in};
ghost use Rattle.layout.specs.Figures.{blocks_in};
ghost use Rattle.buffer.specs.Says.{state_of, SlotSays};
ghost use Rattle.buffer_choices.specs.Says.{TallyOfAll, swaps_at};
ghost use Rattle.buffer_choices.specs.InTurn.{StepsInTurn};

use buffer::{Slotted, State};
use layout::{Call, HEAD_PLACES, OWED, Outcome, QUEUE_PLACES, Refill, RingArray, TAIL_PLACES};

// "If the phase is b - 1."
fn moves_now(phase: usize, block: usize) -> bool
    ensures { result ≡ eqb phase (block - 1) }
{
    phase == block.saturating_sub(1)
}

// Of each queue that an entry can name its bytes.
fn tally(entries: &[u16]) -> [u16; 256]
    requires { length entries.now ≤ head_places }
    ensures { TallyOfAll result (bytes_in (length entries.now) entries.now) }
{
    let mut counts = [0u16; 256];
    for entry in entries {
        counts[(entry / 256) as usize] += 1;
    }
    counts
}

// "Among queues with b tail bytes or more, the one with most (lowest number on a tie)": a queue is taken where it has
// `least` bytes or more, which is b at first, and then one more than the fullest so far. Of any b: `caches::fullest_of`
// begins with b - 1.
fn fullest_of(counts: &[u16; 256], queues: usize, b: usize) -> Option<u8>
    ensures { chosen_in result ≡ fullest b (counts_in counts.now) queues }
{
    let mut found = None;
    let mut least = b;
    for (i, &bytes) in counts[..queues.min(256)].iter().enumerate() {
        let bytes = bytes as usize;
        if least <= bytes {
            found = Some(i as u8);
            least = bytes + 1;
        }
    }
    found
}

// "Scan the cells from the oldest and stop at the first Owed cell that its queue's head bytes do not cover." Of any cells:
// `lookahead::scan` is for queues that have a place in a state's arrays, and goes on from a place with what credits it is
// told.
fn scan(cells: &[u32], credits: [u16; 256]) -> Option<Refill>
    requires { length cells.now ≤ cell_places }
    ensures { refill_in result ≡ refill_by (counts_in credits) (cells_in (length cells.now) cells.now) }
{
    let mut left = credits;
    for (i, &cell) in cells.iter().enumerate() {
        if OWED <= cell {
            let q = (cell / 256 % 256) as usize;
            if left[q] == 0 {
                return Some(Refill {
                    queue: q as u8,
                    slots_left: (i + 1) as u16,
                });
            }
            left[q] -= 1;
        }
    }
    None
}

// The blocks of a queue: one past the last has none, nor has one past the array.
fn stored_blocks(stored: &RingArray, queues: usize, queue: u8) -> usize
    ensures { (result ≡ blocks_in queues stored.now queue) × (result ≤ 255) }
{
    match stored[..queues.min(QUEUE_PLACES)].get(queue as usize) {
        Some(&blocks) => blocks as usize,
        None => 0,
    }
}

// The bytes of a queue in the slow store, b × blocks. A block counts for 2,018 bytes at most, which is more than there
// are cells.
fn stored_bytes(stored: &RingArray, queues: usize, block: usize, queue: u8) -> u32
    ensures { (result ≡ min block 2018 * blocks_in queues stored.now queue) × (result ≤ 514590) }
{
    (block.min(2018) * stored_blocks(stored, queues, queue)) as u32
}

// 3. "It is Owed if the queue's head bytes + b × blocks exceed its Owed cells": its margin, which is its head bytes
// less its Owed cells, and b × blocks are above zero.
pub fn owes(state: State, queue: u8) -> bool
    ensures { result ≡ is_owed (state_of state) queue }
{
    let margin = buffer_margin::margin(
        &state.head,
        &state.cells,
        state.regs.head_fill,
        state.regs.queues,
        state.regs.block,
        queue as u16,
    );
    let bytes = stored_bytes(&state.stored, state.regs.queues, state.regs.block, queue);
    0 < margin + (bytes as i32)
}

// The tail bytes of a queue. Where the fill is past its array, they are those of the array.
fn tail_bytes(state: State, queue: u8) -> usize
    ensures { (result ≡ tail_bytes (state_of state) queue) × (result ≤ tail_places) }
{
    let tails = tally(&state.tail[..state.regs.tail_fill.min(TAIL_PLACES)]);
    tails[queue as usize] as usize
}

// "Tail bytes + b × blocks equal K × b": counted in blocks, since K × b need not fit where the sizes are not accepted,
// as `slot_refusals::is_full` may take it.
fn is_full(bytes: usize, blocks: usize, block: usize, depth: usize) -> bool
    requires { (bytes ≤ tail_places) × (blocks ≤ 255) }
    ensures { result ≡ eqb (bytes + block * blocks) (depth * block) }
{
    if block == 0 {
        return bytes == 0;
    }
    bytes % block == 0 && bytes / block + blocks == depth
}

// Whether an arrival and a request of one queue swap: the tail has a byte of it, it is full, and the request would be
// Held.
fn swaps_at(state: State, queue: u8) -> bool
    ensures { result ≡ swaps_at (state_of state) queue }
{
    let bytes = tail_bytes(state, queue);
    if bytes == 0 {
        return false;
    }
    let blocks = stored_blocks(&state.stored, state.regs.queues, queue);
    is_full(bytes, blocks, state.regs.block, state.regs.depth) && !owes(state, queue)
}

// Request 2.1: whether the slot takes its request before its arrival. Of the state as it is handed in, before the
// oldest cell leaves.
pub fn swaps(state: State, call: Call) -> bool
    ensures { result ≡ swaps (state_of state) (arrival_in call.arrival) (request_in call.request) }
{
    match (call.arrival, call.request) {
        (Some(byte), Some(asked)) => byte.queue == asked && swaps_at(state, asked),
        _ => false,
    }
}

// 4. "First a write": the queue to write, or none.
pub fn to_write(state: State) -> Option<u8>
    ensures { chosen_in result ≡ queue_to_write (state_of state) }
{
    if !moves_now(state.regs.phase, state.regs.block) {
        return None;
    }
    let tails = tally(&state.tail[..state.regs.tail_fill.min(TAIL_PLACES)]);
    fullest_of(&tails, state.regs.queues, state.regs.block)
}

// 4. "Then a read": the queue to read, or none, and in how many slots the cell leaves that it is for (2.6).
pub fn to_read(state: State) -> Option<Refill>
    ensures { refill_in result ≡ refill_of (state_of state) }
{
    if !moves_now(state.regs.phase, state.regs.block) {
        return None;
    }
    let heads = tally(&state.head[..state.regs.head_fill.min(HEAD_PLACES)]);
    let l = buffer_margin::cells_within(state.regs.queues, state.regs.block);
    scan(&state.cells[..l], heads)
}

// The steps in turn, told by the four choices, are the slot: as a contract, so that it is proved with the code.
pub fn steps_in_turn()
    ensures { StepsInTurn }
{}

// Whether a request is Owed; none is not.
pub fn owes_request(state: State, request: Option<u8>) -> bool
    ensures { (q : ℕ) → request_in request ≡ some q → result ≡ is_owed (state_of state) q }
{
    match request {
        Some(queue) => owes(state, queue),
        None => false,
    }
}

// One slot, of any state and any store: judged, and where nothing stops it its steps in turn, with what is left of its
// call. Whether it swaps is told by the state as it is handed in, each other choice by the state at hand. On a refusal
// the very record comes back.
pub fn in_turn(state: State, call: Call, store: &mut [u8]) -> Slotted
    ensures { SlotSays state store.old (call_in call) result store.new }
{
    let judged = match state.judge(call, store.len()) {
        Ok(judged) => judged,
        Err(refusal) => {
            return Slotted {
                state,
                reply: Err(refusal),
            };
        }
    };
    let arrival = judged.call.arrival;
    let request = judged.call.request;
    let swapping = swaps(state, judged.call);
    let first = state.deliver();
    let early = slot_plan::early_arrival(swapping, arrival);
    let arrived = first.state.arrive(early);
    let owing = owes_request(arrived, request);
    let asked = arrived.ask(owing, request);
    let late = slot_plan::late_arrival(swapping, arrival);
    let filled = asked.arrive(late);
    let written = to_write(filled);
    let wrote = filled.write(written, store);
    let refill = to_read(wrote);
    let chosen = refill.map(|block| block.queue);
    let refilled = wrote.read(chosen, store);
    let turned = refilled.turn();
    Slotted {
        state: turned,
        reply: Ok(Outcome {
            arrival_dropped: judged.arrival_dropped,
            request_dropped: judged.request_dropped,
            delivery: first.delivery,
            written,
            read: refill,
        }),
    }
}
