// Whether a state keeps the rules (refusal 3): the paper's section "The state", judged on any numbers and any arrays.
// The arrays are lent one by one: crates/layout says why.
#![tactic(auto)]

ghost use Rattle.std.specs.Prelude.{◌≡◌, true};
ghost use Rattle.model.specs.Sizes.{paper_limits, accepts};
ghost use Rattle.layout.specs.Entries.{counts_in};
ghost use Rattle.layout.specs.Views.{Long, arrays, sizes_in, state_in};
ghost use Rattle.slot_rules.specs.Says.{regs_keep, ring_keeps, queues_keep, RulesSays};

use layout::{CellArray, HeadArray, QueueCounts, Regs, RingArray, TailArray};

// Sizes, phase, fills, high marks and the last one asked.
fn regs_keep(regs: Regs) -> bool
    ensures { result ≡ regs_keep regs }
{
    if !sizing::accepted(regs.queues, regs.block, regs.depth) {
        return false;
    }
    let span = regs.queues * (regs.block - 1);
    regs.phase < regs.block
        && regs.tail_fill <= regs.tail_mark
        && regs.tail_mark <= span + regs.block
        && regs.head_fill <= regs.head_mark
        && regs.head_mark <= 2 * span + 1
        && regs.last_asked < regs.queues
}

// One queue: its first ring block, its room and its backing.
fn queue_keeps(first: u8, count: u8, tail: u16, head: u16, owed: u16, regs: Regs) -> bool
    requires { accepts paper_limits (sizes_in regs) ≡ true }
    ensures { result ≡ ring_keeps regs first count tail head owed }
{
    let in_store = regs.block * count as usize;
    (first as usize) < regs.depth
        && tail as usize + in_store <= regs.depth * regs.block
        && owed as usize <= head as usize + in_store
}

// The first ring block, the room and the backing of each queue.
fn queues_keep(firsts: &RingArray, stored: &RingArray, counts: &QueueCounts, regs: Regs) -> bool
    requires { accepts paper_limits (sizes_in regs) ≡ true }
    ensures { result ≡ queues_keep regs (counts_in firsts.now) (counts_in stored.now)
        (counts_in counts.now.tails) (counts_in counts.now.heads) (counts_in counts.now.owing) }
{
    (0..regs.queues).all(|q| {
        queue_keeps(
            firsts[q],
            stored[q],
            counts.tails[q],
            counts.heads[q],
            counts.owing[q],
            regs,
        )
    })
}

// Whether the whole state keeps the rules; where it does, its counts by queue, which judging takes and every slot needs.
pub fn judge_rules(
    tail: &TailArray,
    head: &HeadArray,
    cells: &CellArray,
    firsts: &RingArray,
    stored: &RingArray,
    regs: Regs,
) -> Option<QueueCounts>
    requires { Long (arrays tail.now head.now cells.now firsts.now stored.now) }
    ensures { RulesSays (state_in regs (arrays tail.now head.now cells.now firsts.now stored.now)) result }
{
    if !regs_keep(regs) {
        return None;
    }
    let l = regs.queues * (regs.block - 1) + 1;
    if !(caches::all_below(tail, regs.tail_fill, regs.queues)
        && caches::all_below(head, regs.head_fill, regs.queues)
        && lookahead::all_below(cells, l, regs.queues))
    {
        return None;
    }
    let counts = QueueCounts {
        tails: caches::tally(tail, regs.tail_fill),
        heads: caches::tally(head, regs.head_fill),
        owing: lookahead::tally_owed(cells, l),
    };
    if !queues_keep(firsts, stored, &counts, regs) {
        return None;
    }
    Some(counts)
}
