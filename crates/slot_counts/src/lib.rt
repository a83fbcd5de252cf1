// Counts by queue: tail bytes, head bytes, Owed cells. They are taken once and kept up to date along each slot, so that
// no slot counts again.
#![tactic(auto)]

ghost use Rattle.std.specs.Prelude.{◌≡◌, true, false, ℕ, ◌≤◌, ◌<◌};
ghost use Rattle.std.proofs.Math.Option.{some};
ghost use Rattle.model.specs.Sizes.{paper_limits, accepts};
ghost use Rattle.model.specs.State as state;
ghost use Rattle.model.specs.State.{owed};
ghost use Rattle.layout.specs.Lengths.{tail_places, head_places, cell_places, queue_places};
ghost use Rattle.layout.specs.Entries.{counts_in, cell_of};
ghost use Rattle.layout.specs.Calls.{chosen_in, arrival_in, request_in, call_in};
ghost use Rattle.layout.specs.Counts.{CountsAre, counts_of};
ghost use Rattle.layout.specs.Lent.{counts_found, counts_left};
ghost use Rattle.layout.specs.Views.{sizes_in};
ghost use Rattle.slot_counts.specs.Says.{Countable, TakeSays, arrival_counted, less_taken, with_owed};
ghost use Rattle.slot_counts.specs.Says.{less_block, with_block, tails_asked, TurnSays};

use layout::{Byte, Call, CellArray, CountArray, HeadArray, QueueCounts, Regs, TailArray};

// The counts of a state whose queue numbers have a place, taken once for many slots.
pub fn take(tail: &TailArray, head: &HeadArray, cells: &CellArray, regs: Regs) -> QueueCounts
    requires { Countable regs tail.now head.now cells.now }
    ensures { TakeSays regs tail.now head.now cells.now (counts_of result) }
{
    QueueCounts {
        tails: caches::tally(tail, regs.tail_fill),
        heads: caches::tally(head, regs.head_fill),
        owing: lookahead::tally_owed(cells, regs.queues * (regs.block - 1) + 1),
    }
}

// The arriving byte adds one to its queue's tail bytes.
pub fn arrived(tails: &mut CountArray, arrival: Option<Byte>)
    requires { ((q : ℕ) → counts_in tails.old q ≤ head_places)
        × ((y : state.Byte) → arrival_in arrival ≡ some y → y.queue < queue_places) }
    ensures { CountsAre tails.new
        (arrival_counted (arrival_in arrival) (counts_in tails.old)) }
{
    if let Some(byte) = arrival {
        tails[byte.queue as usize] += 1;
    }
}

// A request that takes a tail byte takes one from its queue's tail bytes.
pub fn taken(tails: &mut CountArray, owes: bool, request: Option<u8>)
    requires { (q : ℕ) → request_in request ≡ some q → owes ≡ false
        → (q < queue_places) × (1 ≤ counts_in tails.old q) }
    ensures { CountsAre tails.new
        (less_taken owes (request_in request) (counts_in tails.old)) }
{
    if let Some(queue) = request
        && !owes
    {
        tails[queue as usize] -= 1;
    }
}

// A request that takes an Owed cell adds one to its queue's Owed cells.
fn asked(owing: &mut CountArray, owes: bool, request: Option<u8>)
    requires { ((q : ℕ) → counts_in owing.old q ≤ head_places)
        × ((q : ℕ) → request_in request ≡ some q → owes ≡ true → q < queue_places) }
    ensures { CountsAre owing.new
        (with_owed owes (request_in request) (counts_in owing.old)) }
{
    if let Some(queue) = request
        && owes
    {
        owing[queue as usize] += 1;
    }
}

// The block that is written leaves its queue's tail bytes.
fn wrote(tails: &mut CountArray, written: Option<u8>, b: u16)
    requires { (q : ℕ) → chosen_in written ≡ some q → (q < queue_places) × (b ≤ counts_in tails.old q) }
    ensures { CountsAre tails.new (less_block b (chosen_in written) (counts_in tails.old)) }
{
    if let Some(queue) = written {
        tails[queue as usize] -= b;
    }
}

// The block that is read joins its queue's head bytes.
fn refilled(heads: &mut CountArray, chosen: Option<u8>, b: u16)
    requires { ((q : ℕ) → counts_in heads.old q ≤ head_places) × (b ≤ 128)
        × ((q : ℕ) → chosen_in chosen ≡ some q → q < queue_places) }
    ensures { CountsAre heads.new (with_block b (chosen_in chosen) (counts_in heads.old)) }
{
    if let Some(queue) = chosen {
        heads[queue as usize] += b;
    }
}

// The counts over an accepted slot, of which all is decided.
pub fn turn(
    tails: &mut CountArray,
    heads: &mut CountArray,
    owing: &mut CountArray,
    regs: Regs,
    cell: u32,
    call: Call,
    owes: bool,
    written: Option<u8>,
    read: Option<u8>,
)
    requires { (accepts paper_limits (sizes_in regs) ≡ true)
        × ((q : ℕ) → counts_in tails.old q ≤ tail_places) × ((q : ℕ) → counts_in heads.old q ≤ head_places)
        × ((q : ℕ) → counts_in owing.old q ≤ cell_places)
        × ((q : ℕ) → cell_of cell ≡ owed q
        → (q < queue_places) × (1 ≤ counts_in heads.old q) × (1 ≤ counts_in owing.old q))
        × ((y : state.Byte) → arrival_in call.arrival ≡ some y → y.queue < queue_places)
        × ((q : ℕ) → request_in call.request ≡ some q → q < queue_places)
        × ((q : ℕ) → request_in call.request ≡ some q → owes ≡ false
        → 1 ≤ arrival_counted (arrival_in call.arrival) (counts_in tails.old) q)
        × ((q : ℕ) → chosen_in written ≡ some q
        → (q < queue_places) × (regs.block ≤ tails_asked owes (call_in call) (counts_in tails.old) q))
        × ((q : ℕ) → chosen_in read ≡ some q → q < queue_places) }
    ensures { TurnSays (sizes_in regs) (cell_of cell) (call_in call) owes (chosen_in written)
        (chosen_in read) (counts_found tails heads owing) (counts_left tails heads owing) }
{
    lookahead::spend(heads, cell);
    lookahead::spend(owing, cell);
    arrived(tails, call.arrival);
    taken(tails, owes, call.request);
    asked(owing, owes, call.request);
    wrote(tails, written, regs.block as u16);
    refilled(heads, read, regs.block as u16);
}
