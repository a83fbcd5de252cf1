// What a slot on lent arrays will do, whatever the arrays and the store hold: 3 and 2 are judged first, and the rest is
// decided as in place, by the counts that judging took. Nothing moves. The arrays are lent one by one: crates/layout
// says why.
#![tactic(auto)]

ghost use Rattle.std.specs.Prelude.{◌≡◌, true};
ghost use Rattle.model.specs.Sizes.{paper_limits, accepts, paper};
ghost use Rattle.model.specs.State.{keeps};
ghost use Rattle.layout.specs.Calls.{call_in, number_in};
ghost use Rattle.layout.specs.Lent.{counts_found, counts_left};
ghost use Rattle.layout.specs.Views.{Long, arrays, sizes_in, state_in};
ghost use Rattle.slot_checked.specs.Says.{state_number, CountsSay, PlanCheckedSays};

use layout::{
    Call, CellArray, CountArray, HeadArray, QueueCounts, Refusal, Regs, RingArray, TailArray,
};
use slot_plan::Plan;

// 3 and 2, in this order, where it is known whether the rules are kept: of every slot, whether it is run or planned.
pub fn state_number(kept: bool, regs: Regs, bytes: usize) -> Result<(), Refusal>
    requires { kept ≡ true → accepts paper_limits (sizes_in regs) ≡ true }
    ensures { number_in result ≡ state_number kept (sizes_in regs) bytes }
{
    if !kept {
        return Err(Refusal::BrokenRules);
    }
    if bytes < regs.queues * regs.depth * regs.block {
        return Err(Refusal::ShortStore);
    }
    Ok(())
}

// 3 and 2 of a state and a store of so many bytes; where the state keeps the rules, its counts by queue too, so that it
// is ready for slots in place unless the store is too short.
pub fn judge_state(
    tail: &TailArray,
    head: &HeadArray,
    cells: &CellArray,
    firsts: &RingArray,
    stored: &RingArray,
    tails: &mut CountArray,
    heads: &mut CountArray,
    owing: &mut CountArray,
    regs: Regs,
    bytes: usize,
) -> Result<(), Refusal>
    requires { Long (arrays tail.now head.now cells.now firsts.now stored.now) }
    ensures { (number_in result ≡ state_number
        (keeps paper (state_in regs (arrays tail.now head.now cells.now firsts.now stored.now)))
        (sizes_in regs) bytes)
        × CountsSay (state_in regs (arrays tail.now head.now cells.now firsts.now stored.now))
        (state_in regs (arrays tail.now head.now cells.now firsts.now stored.now))
        (counts_found tails heads owing) (counts_left tails heads owing) }
{
    let judged = slot_rules::judge_rules(tail, head, cells, firsts, stored, regs);
    if let Some(counts) = judged {
        // Taken apart first: an array field cannot be stored straight.
        let QueueCounts {
            tails: by_tail,
            heads: by_head,
            owing: by_owed,
        } = counts;
        *tails = by_tail;
        *heads = by_head;
        *owing = by_owed;
    }
    state_number(judged.is_some(), regs, bytes)
}

// What a slot will do, of any state and any store of so many bytes: 3 and 2, and then as the slot in place decides it.
pub fn plan(
    tail: &TailArray,
    head: &HeadArray,
    cells: &CellArray,
    firsts: &RingArray,
    stored: &RingArray,
    regs: Regs,
    call: Call,
    bytes: usize,
) -> Result<Plan, Refusal>
    requires { Long (arrays tail.now head.now cells.now firsts.now stored.now) }
    ensures { PlanCheckedSays (state_in regs (arrays tail.now head.now cells.now firsts.now stored.now)) bytes
        (call_in call) result }
{
    let judged = slot_rules::judge_rules(tail, head, cells, firsts, stored, regs);
    state_number(judged.is_some(), regs, bytes)?;
    let QueueCounts {
        tails,
        heads,
        owing,
    } = judged.unwrap();
    slot_plan::decide(cells, &tails, &heads, &owing, stored, regs, call)
}
