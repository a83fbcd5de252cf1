// One slot on lent arrays, in place: decided before anything moves, then counted, then carried out. The arrays are lent
// one by one: crates/layout says why.
#![tactic(auto)]

ghost use Rattle.layout.specs.Calls.{chosen_in, refill_in, call_in};
ghost use Rattle.layout.specs.Views.{Long, state_in};
ghost use Rattle.layout.specs.Lent.{given, found, left, counts_given, counts_left};
ghost use Rattle.slot_in_place.specs.Says.{Decided, CarrySays, Ready, AdvanceSays, AsGiven};

use layout::{
    Byte, Call, CellArray, CountArray, HeadArray, Outcome, Regs, Reply, RingArray, TailArray,
};
use slot_plan::Plan;

// Where a slot that is carried out leaves the registers, and what it delivers.
#[derive(Clone, Copy)]
pub struct Carried {
    pub regs: Regs,
    pub delivery: Option<Byte>,
}

// The five steps of a slot of which all is decided.
pub fn carry(
    tail: &mut TailArray,
    head: &mut HeadArray,
    cells: &mut CellArray,
    firsts: &mut RingArray,
    stored: &mut RingArray,
    regs: Regs,
    plan: Plan,
    store: &mut [u8],
) -> Carried
    requires { Long (given tail head cells firsts stored)
        × Decided (state_in regs (given tail head cells firsts stored)) store.old
        (call_in plan.call) plan.owes plan.swaps (chosen_in plan.written) (refill_in plan.refill).queue }
    ensures { CarrySays
        (state_in regs (found tail head cells firsts stored))
        store.old (call_in plan.call) result
        (left tail head cells firsts stored)
        store.new }
{
    // 1. The oldest cell leaves: its byte is fixed before anything else.
    let cell = cells[0];
    let gave = slot_steps::deliver(head, regs.head_fill, cell);
    // 2. The arriving byte joins the tail, or waits for the request to make room.
    let early = slot_plan::early_arrival(plan.swaps, plan.call.arrival);
    let joined = slot_steps::arrive(tail, regs.tail_fill, early);
    // 3. The request takes the youngest cell.
    let asked = slot_steps::ask(tail, joined, plan.owes, plan.call.request);
    lookahead::shift(cells, regs.queues * (regs.block - 1) + 1, asked.cell);
    let late = slot_plan::late_arrival(plan.swaps, plan.call.arrival);
    let filled = slot_steps::arrive(tail, asked.fill, late);
    // 4. The two moves, where a queue is chosen.
    let tail_fill = slot_steps::write(tail, firsts, stored, regs, filled, plan.written, store);
    let read = plan.refill.map(|refill| refill.queue);
    let head_fill = slot_steps::read(head, firsts, stored, regs, gave.fill, read, store);
    // 5. The phase. The marks rise with the fills; a late arrival fills the place that the request has left. Each register
    // is named, so that one more could not be forgotten here.
    Carried {
        regs: Regs {
            queues: regs.queues,
            block: regs.block,
            depth: regs.depth,
            phase: slot_steps::next_phase(regs.phase, regs.block),
            tail_fill,
            head_fill,
            tail_mark: regs.tail_mark.max(joined),
            head_mark: regs.head_mark.max(head_fill),
            last_asked: regs.last_asked,
        },
        delivery: gave.delivery,
    }
}

// What a slot answers: the registers that it leaves, and what it tells.
#[derive(Clone, Copy)]
pub struct Advanced {
    pub regs: Regs,
    pub reply: Reply,
}

// One slot. It is judged before anything moves, so that a refused one has changed nothing; then the counts by queue and
// the state go on with what is left of the call.
pub fn advance(
    tail: &mut TailArray,
    head: &mut HeadArray,
    cells: &mut CellArray,
    firsts: &mut RingArray,
    stored: &mut RingArray,
    tails: &mut CountArray,
    heads: &mut CountArray,
    owing: &mut CountArray,
    regs: Regs,
    call: Call,
    store: &mut [u8],
) -> Advanced
    requires { Ready regs (given tail head cells firsts stored)
        (counts_given tails heads owing) store.old }
    ensures { AdvanceSays
        (state_in regs (found tail head cells firsts stored))
        store.old (call_in call) result
        (left tail head cells firsts stored)
        (counts_left tails heads owing) store.new
        × AsGiven regs
        (found tail head cells firsts stored)
        result
        (left tail head cells firsts stored) }
{
    let plan = match slot_plan::decide(cells, tails, heads, owing, stored, regs, call) {
        Ok(plan) => plan,
        Err(refusal) => {
            return Advanced {
                regs,
                reply: Err(refusal),
            };
        }
    };
    let read = plan.refill.map(|refill| refill.queue);
    slot_counts::turn(
        tails,
        heads,
        owing,
        regs,
        cells[0],
        plan.call,
        plan.owes,
        plan.written,
        read,
    );
    let carried = carry(tail, head, cells, firsts, stored, regs, plan, store);
    Advanced {
        regs: carried.regs,
        reply: Ok(Outcome {
            arrival_dropped: plan.arrival_dropped,
            request_dropped: plan.request_dropped,
            delivery: carried.delivery,
            written: plan.written,
            read: plan.refill,
        }),
    }
}
