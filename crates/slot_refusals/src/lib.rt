// Refusals 4 to 10, judged by counts of each queue before anything moves, so that a refused slot has nothing to undo
// and a dropped half never came.
#![tactic(auto)]

ghost use Rattle.std.specs.Prelude.{◌≡◌, true, [], ◌≤◌, ◌<◌, None, length, IfErr};
ghost use Rattle.model.specs.Basics.{choose, all_true};
ghost use Rattle.model.specs.Sizes.{paper_limits, accepts};
ghost use Rattle.model.specs.State.{cell_below};
ghost use Rattle.layout.specs.Lengths.{head_places, queue_places};
ghost use Rattle.layout.specs.Entries.{counts_in, cell_of};
ghost use Rattle.layout.specs.Calls.{chosen_in, arrival_in, request_in, call_in, number_of, number_in};
ghost use Rattle.layout.specs.Counts.{by_queue};
ghost use Rattle.layout.specs.Views.{sizes_in};
ghost use Rattle.layout.specs.Figures.{figures_in};
ghost use Rattle.slot_refusals.specs.Says.{owes_now, arrives_at, queue_full_now, room_tests_now};
ghost use Rattle.slot_refusals.specs.Says.{ArrivalSays, request_told, request_number, leaving_number, tail_number};
ghost use Rattle.slot_refusals.specs.Says.{EarlySays, full_now};

use layout::{Byte, Call, CountArray, OWED, Refusal, Regs, RingArray};

// Whether a request takes an Owed cell.
pub fn is_owed(heads: &[u16], owing: &[u16], stored: &[u8], regs: Regs, request: Option<u8>) -> bool
    requires { (accepts paper_limits (sizes_in regs) ≡ true)
        × (length heads.now ≡ queue_places) × (length owing.now ≡ queue_places)
        × (length stored.now ≡ queue_places) }
    ensures { result ≡ owes_now
        (figures_in regs (by_queue [] heads.now owing.now) stored.now)
        (request_in request) }
{
    let Some(queue) = request else {
        return false;
    };
    let q = queue as usize;
    if regs.queues <= q {
        return false;
    }
    (owing[q] as usize) < (heads[q] as usize) + regs.block * (stored[q] as usize)
}

// Whether an arrival is of queue q.
pub fn arrives_at(arrival: Option<Byte>, q: u8) -> bool
    ensures { result ≡ arrives_at (arrival_in arrival) q }
{
    arrival.is_some_and(|byte| byte.queue == q)
}

// Whether a queue has no space left.
pub fn is_full(tails: &[u16], stored: &[u8], regs: Regs, q: usize) -> bool
    requires { (accepts paper_limits (sizes_in regs) ≡ true)
        × (length tails.now ≡ queue_places) × (length stored.now ≡ queue_places) × (q < regs.queues) }
    ensures { result ≡ queue_full_now (figures_in regs (by_queue tails.now [] []) stored.now) q }
{
    (tails[q] as usize) + regs.block * (stored[q] as usize) == regs.depth * regs.block
}

// Whether a request takes a byte of a queue out of the tail, and so makes room for one that arrives.
fn makes_room(tails: &CountArray, owes: bool, request: Option<u8>, queue: u8) -> bool
    requires { queue < queue_places }
    ensures { result ≡ all_true (room_tests_now (counts_in tails.now) owes (request_in request) queue) }
{
    request == Some(queue) && !owes && 0 < tails[queue as usize]
}

// What is judged of an arrival of a known queue, or of none: whether 5 drops it, and whether the slot takes its request
// before it.
#[derive(Clone, Copy)]
pub struct ArrivalJudged {
    pub dropped: bool,
    pub swaps: bool,
}

// 4 and 5, the arrival's queue; 5 not where the slot swaps, which is asked only where the queue is full.
pub fn judge_arrival(
    tails: &CountArray,
    stored: &RingArray,
    regs: Regs,
    owes: bool,
    call: Call,
) -> Result<ArrivalJudged, Refusal>
    requires { accepts paper_limits (sizes_in regs) ≡ true }
    ensures { ArrivalSays (figures_in regs (by_queue tails.now [] []) stored.now) owes (call_in call) result }
{
    let Some(byte) = call.arrival else {
        return Ok(ArrivalJudged {
            dropped: false,
            swaps: false,
        });
    };
    let q = byte.queue as usize;
    if regs.queues <= q {
        return Err(Refusal::UnknownArrival);
    }
    let full = is_full(tails, stored, regs, q);
    let swaps = full && makes_room(tails, owes, call.request, byte.queue);
    Ok(ArrivalJudged {
        dropped: full && !swaps,
        swaps,
    })
}

// 6 and 7, the request's queue: whether 7 drops it. `call` has the arrival that is left.
pub fn judge_request(
    tails: &CountArray,
    regs: Regs,
    owes: bool,
    call: Call,
) -> Result<bool, Refusal>
    requires { accepts paper_limits (sizes_in regs) ≡ true }
    ensures number { request_told result ≡ request_number (figures_in regs (by_queue tails.now [] []) []) owes
        (arrival_in call.arrival) (request_in call.request) }
    ensures stops { IfErr result (λ refusal. number_of refusal ≡ 6) }
{
    let Some(queue) = call.request else {
        return Ok(false);
    };
    let q = queue as usize;
    if regs.queues <= q {
        return Err(Refusal::UnknownRequest);
    }
    let arrives = arrives_at(call.arrival, queue);
    Ok(!owes && !arrives && tails[q] == 0)
}

// 8: the leaving cell.
pub fn judge_leaving(heads: &CountArray, cell: u32) -> Result<(), Refusal>
    requires { cell_below queue_places (cell_of cell) ≡ true }
    ensures number { number_in result ≡ leaving_number (counts_in heads.now) (cell_of cell) }
    ensures stops { IfErr result (λ refusal. number_of refusal ≡ 8) }
{
    if OWED <= cell {
        let q = (cell / 256 % 256) as usize;
        if heads[q] == 0 {
            return Err(Refusal::ByteMissing);
        }
    }
    Ok(())
}

// 9: the tail, as it is before the arrival: where the slot swaps, the request has taken a byte.
pub fn judge_tail(regs: Regs, swapping: bool, arrival: Option<Byte>) -> Result<(), Refusal>
    requires { accepts paper_limits (sizes_in regs) ≡ true }
    ensures number { number_in result ≡ tail_number (sizes_in regs) regs.tail_fill swapping (arrival_in arrival) }
    ensures stops { IfErr result (λ refusal. number_of refusal ≡ 9) }
{
    if arrival.is_none() {
        return Ok(());
    }
    let size = regs.queues * (regs.block - 1) + regs.block;
    let full = if swapping {
        size < regs.tail_fill
    } else {
        size <= regs.tail_fill
    };
    if full {
        return Err(Refusal::TailFull);
    }
    Ok(())
}

// What is left of a half of a call: 5 drops an arrival, and 7 a request.
fn left<T: Copy>(half: Option<T>, dropped: bool) -> Option<T>
    ensures { result ≡ choose dropped None half }
{
    if dropped { None } else { half }
}

// What is judged of a slot that goes on to its read: whether 5 and 7 drop its halves, what is left of its call, and
// whether it takes its request before its arrival.
#[derive(Clone, Copy)]
pub struct Verdict {
    pub arrival_dropped: bool,
    pub request_dropped: bool,
    pub call: Call,
    pub swaps: bool,
}

// 4 to 9 by number, of which 5 and 7 drop their half and the others stop the slot. 7 and 9 are judged without a dropped
// arrival.
pub fn judge_early(
    tails: &CountArray,
    heads: &CountArray,
    stored: &RingArray,
    regs: Regs,
    cell: u32,
    owes: bool,
    call: Call,
) -> Result<Verdict, Refusal>
    requires { (accepts paper_limits (sizes_in regs) ≡ true) × (cell_below queue_places (cell_of cell) ≡ true) }
    ensures { EarlySays
        (figures_in regs (by_queue tails.now heads.now []) stored.now)
        owes (cell_of cell) (call_in call) result }
{
    let arriving = judge_arrival(tails, stored, regs, owes, call)?;
    let comes = Call {
        arrival: left(call.arrival, arriving.dropped),
        ..call
    };
    let request_dropped = judge_request(tails, regs, owes, comes)?;
    judge_leaving(heads, cell)?;
    judge_tail(regs, arriving.swaps, comes.arrival)?;
    Ok(Verdict {
        arrival_dropped: arriving.dropped,
        request_dropped,
        call: Call {
            request: left(call.request, request_dropped),
            ..comes
        },
        swaps: arriving.swaps,
    })
}

// 10: the head cannot take the block.
pub fn head_full(regs: Regs, cell: u32, read: Option<u8>) -> bool
    requires { (accepts paper_limits (sizes_in regs) ≡ true) × (regs.head_fill ≤ head_places) }
    ensures { result ≡ full_now (sizes_in regs) regs.head_fill (cell_of cell) (chosen_in read) }
{
    if read.is_none() {
        return false;
    }
    let size = 2 * (regs.queues * (regs.block - 1)) + 1;
    if OWED <= cell {
        size + 1 < regs.head_fill + regs.block
    } else {
        size < regs.head_fill + regs.block
    }
}
