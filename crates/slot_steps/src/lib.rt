// The steps of a slot, each on the one large array that it changes, which is lent to it; the last on numbers alone.
#![tactic(auto)]

ghost use Rattle.std.specs.Prelude.{◌≡◌, true, false, ℕ, ◌+◌, ◌-◌, ◌≤◌, ◌<◌, eqb, length};
ghost use Rattle.std.proofs.Math.Option.{some};
ghost use Rattle.model.specs.Basics.{choose};
ghost use Rattle.model.specs.Sizes.{paper_limits, accepts, store_bytes};
ghost use Rattle.model.specs.State as state;
ghost use Rattle.model.specs.State.{owed, count_of};
ghost use Rattle.layout.specs.Entries.{bytes_in, counts_in, cell_of};
ghost use Rattle.layout.specs.Calls.{chosen_in, arrival_in, request_in};
ghost use Rattle.layout.specs.Views.{sizes_in};
ghost use Rattle.slot_steps.specs.Says.{DeliverSays, ArriveSays, AskSays, WriteSays, ReadSays};

use layout::{Byte, EMPTY, HELD, HeadArray, OWED, Regs, RingArray, TailArray};

// What the leaving cell delivers, and the head's fill then.
#[derive(Clone, Copy)]
pub struct CellDelivered {
    pub fill: usize,
    pub delivery: Option<Byte>,
}

// 1. "Held delivers its own byte. Owed delivers the oldest head byte of its queue. Empty delivers nothing."
pub fn deliver(head: &mut HeadArray, fill: usize, cell: u32) -> CellDelivered
    requires { (fill ≤ length head.old)
        × ((q : ℕ) → cell_of cell ≡ owed q → 1 ≤ count_of q (bytes_in fill head.old)) }
    ensures { DeliverSays fill cell head.old head.new result }
{
    let queue = (cell / 256 % 256) as u8;
    if OWED <= cell {
        let value = caches::take_oldest(head, fill, queue as u16);
        return CellDelivered {
            fill: fill - 1,
            delivery: Some(Byte { queue, value }),
        };
    }
    let value = (cell % 256) as u8;
    CellDelivered {
        fill,
        delivery: (HELD <= cell).then_some(Byte { queue, value }),
    }
}

// 2. "The arriving byte joins the tail."
pub fn arrive(tail: &mut TailArray, fill: usize, arrival: Option<Byte>) -> usize
    requires { (fill ≤ length tail.old) × ((y : state.Byte) → arrival_in arrival ≡ some y → fill < length tail.old) }
    ensures { ArriveSays fill (arrival_in arrival) tail.old tail.new result }
{
    let Some(Byte { queue, value }) = arrival else {
        return fill;
    };
    caches::join(tail, fill, queue, value);
    fill + 1
}

// The cell that a request takes, and the tail's fill then.
#[derive(Clone, Copy)]
pub struct Asked {
    pub fill: usize,
    pub cell: u32,
}

// 3. The request's cell: Owed, or Held with the oldest tail byte of its queue.
pub fn ask(tail: &mut TailArray, fill: usize, owes: bool, request: Option<u8>) -> Asked
    requires { (fill ≤ length tail.old)
        × ((q : ℕ) → request_in request ≡ some q → owes ≡ false → 1 ≤ count_of q (bytes_in fill tail.old)) }
    ensures { AskSays fill owes (request_in request) tail.old tail.new result }
{
    let Some(queue) = request else {
        return Asked { fill, cell: EMPTY };
    };
    if owes {
        return Asked {
            fill,
            cell: OWED + (queue as u32) * 256,
        };
    }
    let value = caches::take_oldest(tail, fill, queue as u16);
    Asked {
        fill: fill - 1,
        cell: HELD + (queue as u32) * 256 + (value as u32),
    }
}

// 4. The write.
pub fn write(
    tail: &mut TailArray,
    firsts: &RingArray,
    stored: &mut RingArray,
    regs: Regs,
    fill: usize,
    written: Option<u8>,
    store: &mut [u8],
) -> usize
    requires { (fill ≤ length tail.old) × (accepts paper_limits (sizes_in regs) ≡ true)
        × (store_bytes (sizes_in regs) ≤ length store.old)
        × ((q : ℕ) → chosen_in written ≡ some q → (q < regs.queues)
        × (regs.block ≤ count_of q (bytes_in fill tail.old))
        × (counts_in firsts.now q < regs.depth) × (counts_in stored.old q < regs.depth)) }
    ensures { WriteSays (sizes_in regs) fill (chosen_in written) firsts.now stored.old
        stored.new tail.old tail.new store.old store.new result }
{
    let Some(queue) = written else {
        return fill;
    };
    let Regs { block, depth, .. } = regs;
    let q = queue as usize;
    let next = (firsts[q] as usize + stored[q] as usize) % depth;
    let place = (q * depth + next) * block;
    caches::write_out(tail, fill, queue as u16, block, store, place);
    stored[q] += 1;
    fill - block
}

// 4. The read.
pub fn read(
    head: &mut HeadArray,
    firsts: &mut RingArray,
    stored: &mut RingArray,
    regs: Regs,
    fill: usize,
    chosen: Option<u8>,
    store: &[u8],
) -> usize
    requires { (fill ≤ length head.old) × (accepts paper_limits (sizes_in regs) ≡ true)
        × (store_bytes (sizes_in regs) ≤ length store.now)
        × ((q : ℕ) → chosen_in chosen ≡ some q → (q < regs.queues) × (fill + regs.block ≤ length head.old)
        × (counts_in firsts.old q < regs.depth) × (1 ≤ counts_in stored.old q)) }
    ensures { ReadSays (sizes_in regs) fill (chosen_in chosen) firsts.old stored.old
        firsts.new stored.new head.old head.new store.now result }
{
    let Some(queue) = chosen else {
        return fill;
    };
    let Regs { block, depth, .. } = regs;
    let q = queue as usize;
    let first = firsts[q] as usize;
    let place = (q * depth + first) * block;
    caches::read_in(head, fill, queue, block, store, place);
    firsts[q] = ((first + 1) % depth) as u8;
    stored[q] -= 1;
    fill + block
}

// 5. "The phase rises by one, and after b - 1 comes 0."
pub fn next_phase(phase: usize, block: usize) -> usize
    requires { phase < block }
    ensures { result ≡ choose (eqb phase (block - 1)) 0 (phase + 1) }
{
    let next = phase + 1;
    if next == block { 0 } else { next }
}
