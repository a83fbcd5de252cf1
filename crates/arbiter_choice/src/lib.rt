// The queue that the round robin arbiter asks, by counts of each queue: the next one, counting up from the last one
// asked and wrapping, that has an unrequested byte.
#![tactic(auto)]

ghost use Rattle.std.specs.Prelude.{◌≡◌, true, [], ◌<◌};
ghost use Rattle.model.specs.Sizes.{paper_limits, accepts};
ghost use Rattle.model.specs.Arbiter.{queue_after};
ghost use Rattle.layout.specs.Calls.{arrival_in, request_in};
ghost use Rattle.layout.specs.Counts.{by_queue};
ghost use Rattle.layout.specs.Views.{sizes_in};
ghost use Rattle.layout.specs.Figures.{figures_in};
ghost use Rattle.arbiter_choice.specs.Says.{counted_now, can_ask_now, choice_now};

use layout::{Byte, CountArray, Regs, RingArray};

// The arrival, where it counts in the choice: its queue is known and not full.
fn counted(
    tails: &CountArray,
    stored: &RingArray,
    regs: Regs,
    arrival: Option<Byte>,
) -> Option<Byte>
    requires { accepts paper_limits (sizes_in regs) ≡ true }
    ensures { arrival_in result
        ≡ counted_now (figures_in regs (by_queue tails.now [] []) stored.now) (arrival_in arrival) }
{
    let byte = arrival?;
    let q = byte.queue as usize;
    if regs.queues <= q || slot_refusals::is_full(tails, stored, regs, q) {
        return None;
    }
    Some(byte)
}

// Whether a queue has an unrequested byte: in head or slow store, in the tail, or as the arrival that counts.
fn can_ask(
    tails: &CountArray,
    heads: &CountArray,
    owing: &CountArray,
    stored: &RingArray,
    regs: Regs,
    coming: Option<Byte>,
    q: usize,
) -> bool
    requires { (accepts paper_limits (sizes_in regs) ≡ true) × (q < regs.queues) }
    ensures { result ≡ can_ask_now
        (figures_in regs (by_queue tails.now heads.now owing.now) stored.now)
        (arrival_in coming) q }
{
    let queue = q as u8;
    slot_refusals::is_owed(heads, owing, stored, regs, Some(queue))
        || 0 < tails[q]
        || slot_refusals::arrives_at(coming, queue)
}

// The queue after q, wrapping.
fn queue_after(queues: usize, q: usize) -> usize
    requires { q < queues }
    ensures { result ≡ queue_after queues q }
{
    if q + 1 < queues { q + 1 } else { 0 }
}

// The queue to ask, or none: at most all queues are looked at.
pub fn choose(
    tails: &CountArray,
    heads: &CountArray,
    owing: &CountArray,
    stored: &RingArray,
    regs: Regs,
    arrival: Option<Byte>,
) -> Option<u8>
    requires { (accepts paper_limits (sizes_in regs) ≡ true) × (regs.last_asked < regs.queues) }
    ensures { request_in result ≡ choice_now
        (figures_in regs (by_queue tails.now heads.now owing.now) stored.now)
        regs.last_asked (arrival_in arrival) }
{
    let coming = counted(tails, stored, regs, arrival);
    let mut q = queue_after(regs.queues, regs.last_asked);
    for _ in 0..regs.queues {
        if can_ask(tails, heads, owing, stored, regs, coming, q) {
            return Some(q as u8);
        }
        q = queue_after(regs.queues, q);
    }
    None
}
