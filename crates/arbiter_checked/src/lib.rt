// One slot on lent arrays in which the round robin arbiter chooses, whatever the arrays and the store hold: 3 and 2 are
// judged first, and the rest is in place. The counts by queue are lent too, and are left right. The arrays are lent one
// by one: crates/layout says why.
#![tactic(auto)]

ghost use Rattle.layout.specs.Calls.{arrival_in};
ghost use Rattle.layout.specs.Lent.{given, found, left, counts_found, counts_left};
ghost use Rattle.layout.specs.Views.{Long, regs_in};
ghost use Rattle.slot_checked.specs.Says.{LeaveSays};
ghost use Rattle.arbiter_in_place.specs.Says.{ArbiterAdvanceSays};

use arbiter_in_place::Arbitrated;
use layout::{Byte, CellArray, CountArray, HeadArray, RegArray, RingArray, TailArray};

pub fn slot(
    tail: &mut TailArray,
    head: &mut HeadArray,
    cells: &mut CellArray,
    firsts: &mut RingArray,
    stored: &mut RingArray,
    tails: &mut CountArray,
    heads: &mut CountArray,
    owing: &mut CountArray,
    regs: &mut RegArray,
    arrival: Option<Byte>,
    store: &mut [u8],
) -> Arbitrated
    requires { Long (given tail head cells firsts stored) }
    ensures { ArbiterAdvanceSays (regs_in regs.old) (found tail head cells firsts stored)
        store.old (arrival_in arrival) result
        (regs_in regs.new) (left tail head cells firsts stored) store.new
        × LeaveSays (regs_in regs.old) (found tail head cells firsts stored)
        (counts_found tails heads owing) store.old
        (regs_in regs.new) (left tail head cells firsts stored)
        (counts_left tails heads owing) store.new }
{
    let before = layout::regs_in(regs);
    let judged = slot_checked::judge_state(
        tail,
        head,
        cells,
        firsts,
        stored,
        tails,
        heads,
        owing,
        before,
        store.len(),
    );
    if let Err(refusal) = judged {
        return Arbitrated {
            reply: Err(refusal),
            asked: None,
        };
    }
    arbiter_in_place::advance(
        tail, tails, head, heads, cells, owing, firsts, stored, regs, arrival, store,
    )
}
