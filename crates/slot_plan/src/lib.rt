// What a slot will do, decided here alone and before anything moves: why it is refused, or which halves it drops and what
// is left of its call, whether its request takes an Owed cell, whether it takes its request before its arrival, the
// queue to write, the queue to read and its slots left. So a refused slot has nothing to undo, and a dropped half never
// came.
#![tactic(auto)]

ghost use Rattle.std.specs.Prelude.{◌≡◌, true, false, [], ◌∷◌, ℕ, ◌-◌, ◌≤◌, ◌<◌, get_or};
ghost use Rattle.std.proofs.Math.Option.{some, none};
ghost use Rattle.model.specs.Basics.{choose, all_of};
ghost use Rattle.model.specs.Sizes.{paper_limits, accepts, lookahead};
ghost use Rattle.model.specs.State as state;
ghost use Rattle.model.specs.State.{owed, cell_below};
ghost use Rattle.layout.specs.Lengths.{tail_places, head_places, queue_places};
ghost use Rattle.layout.specs.Entries.{counts_in, cell_of, cells_in};
ghost use Rattle.layout.specs.Calls.{chosen_in, arrival_in, request_in, refill_in, call_in};
ghost use Rattle.layout.specs.Counts.{by_queue};
ghost use Rattle.layout.specs.Views.{sizes_in};
ghost use Rattle.layout.specs.Figures.{figures_in, new_cell};
ghost use Rattle.lookahead.specs.Says.{scan_ends};
ghost use Rattle.slot_counts.specs.Says.{arrival_counted, tails_asked};
ghost use Rattle.slot_plan.specs.Says.{write_now, read_now, PlanSays};

use layout::{Byte, Call, CellArray, CountArray, Refill, Refusal, Regs, RingArray};

// The queue that the slot will write: among those with a block of tail bytes or more, this slot's arrival and request
// counted, the one with most.
pub fn to_write(tails: &CountArray, regs: Regs, owes: bool, call: Call) -> Option<u8>
    requires { (accepts paper_limits (sizes_in regs) ≡ true) × (regs.phase < regs.block)
        × ((q : ℕ) → counts_in tails.now q ≤ head_places)
        × ((y : state.Byte) → arrival_in call.arrival ≡ some y → y.queue < queue_places)
        × ((q : ℕ) → request_in call.request ≡ some q → owes ≡ false
        → (q < queue_places) × (1 ≤ arrival_counted (arrival_in call.arrival) (counts_in tails.now) q)) }
    ensures { chosen_in result ≡ write_now regs.phase (sizes_in regs)
        (tails_asked owes (call_in call) (counts_in tails.now)) }
{
    if regs.phase + 1 != regs.block {
        return None;
    }
    let mut asked = *tails;
    slot_counts::arrived(&mut asked, call.arrival);
    slot_counts::taken(&mut asked, owes, call.request);
    caches::fullest_of(&asked, regs.queues, regs.block as u16)
}

// Where the scan of the older cells has stopped, or else the new cell if it is Owed and not covered.
fn or_new(stopped: lookahead::Stopped, owes: bool, request: Option<u8>) -> Option<u8>
    requires { (q : ℕ) → request_in request ≡ some q → owes ≡ true → q < queue_places }
    ensures { chosen_in result ≡ (scan_ends (chosen_in stopped.found) (stopped.place - 1) (counts_in stopped.left)
        (new_cell owes (request_in request) ∷ [])).queue }
{
    if stopped.found.is_some() {
        return stopped.found;
    }
    let queue = request?;
    if owes && stopped.left[queue as usize] == 0 {
        return Some(queue);
    }
    None
}

// The queue that the slot will read, and the slots left.
pub fn to_read(
    cells: &CellArray,
    heads: &CountArray,
    regs: Regs,
    owes: bool,
    request: Option<u8>,
) -> Option<Refill>
    requires { (accepts paper_limits (sizes_in regs) ≡ true) × (regs.phase < regs.block)
        × (all_of (cell_below queue_places) (cells_in (lookahead (sizes_in regs)) cells.now) ≡ true)
        × ((q : ℕ) → cell_of (get_or cells.now 0 0) ≡ owed q → 1 ≤ counts_in heads.now q)
        × ((q : ℕ) → request_in request ≡ some q → owes ≡ true → q < queue_places) }
    ensures { refill_in result ≡ read_now regs.phase (sizes_in regs) (counts_in heads.now)
        (cells_in (lookahead (sizes_in regs)) cells.now) owes (request_in request) }
{
    if regs.phase + 1 != regs.block {
        return None;
    }
    let mut credits = *heads;
    lookahead::spend(&mut credits, cells[0]);
    let stopped = lookahead::scan(cells, 1, regs.queues * (regs.block - 1) + 1, credits);
    // It began at place 1, with the cell that leaves in the next slot: so the place where it stopped says in how many
    // slots a cell leaves, be it one of those that it scanned or the new one behind them.
    let place = stopped.place;
    layout::refill_at(or_new(stopped, owes, request), place)
}

// The arrival that joins before the request, and the one that joins after it: one of the two is none. They are two, since
// whoever calls the steps one at a time says by the name at which of the two he is.
pub fn early_arrival(swaps: bool, arrival: Option<Byte>) -> Option<Byte>
    ensures { arrival_in result ≡ choose swaps none (arrival_in arrival) }
{
    if swaps { None } else { arrival }
}

pub fn late_arrival(swaps: bool, arrival: Option<Byte>) -> Option<Byte>
    ensures { arrival_in result ≡ choose swaps (arrival_in arrival) none }
{
    if swaps { arrival } else { None }
}

// What a slot will do: whether 5 and 7 drop its halves, what is left of its call, and what it does with that.
#[derive(Clone, Copy)]
pub struct Plan {
    pub arrival_dropped: bool,
    pub request_dropped: bool,
    pub call: Call,
    pub owes: bool,
    pub swaps: bool,
    pub written: Option<u8>,
    pub refill: Option<Refill>,
}

// The plan of a slot, by the counts of each queue.
pub fn decide(
    cells: &CellArray,
    tails: &CountArray,
    heads: &CountArray,
    owing: &CountArray,
    stored: &RingArray,
    regs: Regs,
    call: Call,
) -> Result<Plan, Refusal>
    requires { (accepts paper_limits (sizes_in regs) ≡ true) × (regs.phase < regs.block)
        × (regs.head_fill ≤ head_places)
        × (all_of (cell_below queue_places) (cells_in (lookahead (sizes_in regs)) cells.now) ≡ true)
        × ((q : ℕ) → counts_in tails.now q ≤ tail_places) }
    ensures { PlanSays (figures_in regs (by_queue tails.now heads.now owing.now) stored.now)
        regs.phase regs.head_fill (cells_in (lookahead (sizes_in regs)) cells.now)
        (call_in call) result }
{
    let cell = cells[0];
    let owes = slot_refusals::is_owed(heads, owing, stored, regs, call.request);
    let verdict = slot_refusals::judge_early(tails, heads, stored, regs, cell, owes, call)?;
    let left = verdict.call;
    let refill = to_read(cells, heads, regs, owes, left.request);
    let read = refill.map(|block| block.queue);
    if slot_refusals::head_full(regs, cell, read) {
        return Err(Refusal::HeadFull);
    }
    let written = to_write(tails, regs, owes, left);
    Ok(Plan {
        arrival_dropped: verdict.arrival_dropped,
        request_dropped: verdict.request_dropped,
        call: left,
        owes,
        swaps: verdict.swaps,
        written,
        refill,
    })
}
