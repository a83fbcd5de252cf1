// Many slots in one call on lent arrays, whatever the arrays and the store hold: 3 and 2 are judged once, since a slot
// that is refused leaves all as it was, and the rest is in place. The counts by queue are lent too, and are left right.
// The arrays are lent one by one: crates/layout says why.
#![tactic(auto)]

ghost use Rattle.std.specs.Prelude.{◌≡◌};
ghost use Rattle.layout.specs.Calls.{number_in};
ghost use Rattle.layout.specs.Lent.{given, found, left, counts_found, counts_left};
ghost use Rattle.layout.specs.Views.{Long, regs_in, state_in};
ghost use Rattle.slot_checked.specs.Says.{judged_number, LeaveSays};
ghost use Rattle.run_checked.specs.Says.{RunCheckedSays, IdleCheckedSays};

use idle_in_place::Passed;
use layout::{
    CellArray, CountArray, HeadArray, Outcome, Refusal, RegArray, Regs, RingArray, TailArray,
};

// Many slots, of any state and any store: as many calls as there are places for their answers. Where the state or the
// store is refused, each of them answers that refusal.
pub fn run(
    tail: &mut TailArray,
    head: &mut HeadArray,
    cells: &mut CellArray,
    firsts: &mut RingArray,
    stored: &mut RingArray,
    tails: &mut CountArray,
    heads: &mut CountArray,
    owing: &mut CountArray,
    regs: &mut RegArray,
    calls: &[u64],
    answers: &mut [u64],
    store: &mut [u8],
) -> Result<(), Refusal>
    requires { Long (given tail head cells firsts stored) }
    ensures { RunCheckedSays (state_in (regs_in regs.old) (found tail head cells firsts stored))
        calls.now answers.old store.old
        (state_in (regs_in regs.new) (left tail head cells firsts stored))
        answers.new store.new
        × (number_in result ≡ judged_number (regs_in regs.old) (found tail head cells firsts stored) store.old)
        × LeaveSays (regs_in regs.old) (found tail head cells firsts stored)
        (counts_found tails heads owing) store.old
        (regs_in regs.new) (left tail head cells firsts stored)
        (counts_left tails heads owing) store.new }
{
    let n = calls.len().min(answers.len());
    let before = layout::regs_in(regs);
    let judged = slot_checked::judge_state(
        tail,
        head,
        cells,
        firsts,
        stored,
        tails,
        heads,
        owing,
        before,
        store.len(),
    );
    if let Err(refusal) = judged {
        answers[..n].fill(run_words::reply_word(Err(refusal)));
        return Err(refusal);
    }
    // What the last slot told stands in its answer.
    let _ = run_in_place::run_calls(
        tail,
        tails,
        head,
        heads,
        cells,
        owing,
        firsts,
        stored,
        regs,
        &calls[..n],
        answers,
        store,
    );
    Ok(())
}

// One stretch of at most n idle slots, of any state and any store. Where the state breaks the rules or the store is too
// short, it is one slot, and that is refused; no slot at all is never refused.
pub fn idle(
    tail: &mut TailArray,
    head: &mut HeadArray,
    cells: &mut CellArray,
    firsts: &mut RingArray,
    stored: &mut RingArray,
    tails: &mut CountArray,
    heads: &mut CountArray,
    owing: &mut CountArray,
    regs: Regs,
    n: usize,
    store: &mut [u8],
) -> Passed
    requires { Long (given tail head cells firsts stored) }
    ensures { IdleCheckedSays (state_in regs (found tail head cells firsts stored)) store.old n result
        (state_in result.regs (left tail head cells firsts stored)) store.new
        × LeaveSays regs (found tail head cells firsts stored) (counts_found tails heads owing) store.old
        result.regs (left tail head cells firsts stored) (counts_left tails heads owing) store.new }
{
    let judged = slot_checked::judge_state(
        tail,
        head,
        cells,
        firsts,
        stored,
        tails,
        heads,
        owing,
        regs,
        store.len(),
    );
    if n == 0 {
        return Passed {
            regs,
            passed: 0,
            reply: Ok(Outcome::default()),
        };
    }
    if let Err(refusal) = judged {
        return Passed {
            regs,
            passed: 1,
            reply: Err(refusal),
        };
    }
    idle_in_place::pass(
        tail, head, cells, firsts, stored, tails, heads, owing, regs, n, store,
    )
}
