// Slots in which the round robin arbiter chooses, for C callers: lent as in slots.rt. Of the call's word only the
// arrival is looked at.
ghost use Rattle.std.specs.Prelude.{◌≡◌};
ghost use Rattle.layout.specs.Calls.{request_in, reply_in};
ghost use Rattle.layout.specs.Lent.{given, found, left, counts_given, counts_found, counts_left};
ghost use Rattle.layout.specs.Views.{Long, regs_in};
ghost use Rattle.slot_in_place.specs.Says.{Ready};
ghost use Rattle.slot_checked.specs.Says.{LeaveSays};
ghost use Rattle.run_words.specs.Words.{call_of};
ghost use Rattle.gelwynnar.specs.Arbiter.{arbiter_told, ArbiterLentSays};

use crate::slots::Answer;
use arbiter_in_place::Arbitrated;
use layout::{CellArray, CountArray, HeadArray, RegArray, RingArray, TailArray};

// What a slot answers, and the queue that was asked: 1 and the queue where one was, else 0 and 0.
#[repr(C)]
#[derive(Clone, Copy, Default)]
pub struct ArbiterAnswer {
    pub slot: Answer,
    pub asks: u8,
    pub asked: u16,
}

fn tell_arbiter(answer: Arbitrated) -> ArbiterAnswer
    ensures { result ≡ arbiter_told (reply_in answer.reply) (request_in answer.asked) }
{
    ArbiterAnswer {
        slot: crate::slots::tell_reply(answer.reply),
        asks: answer.asked.is_some() as u8,
        asked: answer.asked.unwrap_or(0) as u16,
    }
}

// One slot of a state and counts that this library left, with a store that is long enough: for a caller that knows
// both.
#[unsafe(no_mangle)]
pub extern "C" fn gel_arbiter_step(
    regs: &mut RegArray,
    tail: &mut TailArray,
    head: &mut HeadArray,
    cells: &mut CellArray,
    firsts: &mut RingArray,
    stored: &mut RingArray,
    tails: &mut CountArray,
    heads: &mut CountArray,
    owing: &mut CountArray,
    call: u64,
    store: &mut [u8],
) -> ArbiterAnswer
    requires { Ready (regs_in regs.old) (given tail head cells firsts stored)
        (counts_given tails heads owing) store.old }
    ensures { ArbiterLentSays (regs_in regs.old) (found tail head cells firsts stored)
        store.old (call_of call).arrival result
        (regs_in regs.new) (left tail head cells firsts stored) store.new
        × Ready (regs_in regs.new) (left tail head cells firsts stored)
        (counts_left tails heads owing) store.new }
{
    let arrival = run_words::arrival_in(call);
    let answer = arbiter_in_place::advance(
        tail, tails, head, heads, cells, owing, firsts, stored, regs, arrival, store,
    );
    tell_arbiter(answer)
}

// One slot, of any state and any store; the counts need not be those of the state, and are then.
#[unsafe(no_mangle)]
pub extern "C" fn gel_arbiter_slot(
    regs: &mut RegArray,
    tail: &mut TailArray,
    head: &mut HeadArray,
    cells: &mut CellArray,
    firsts: &mut RingArray,
    stored: &mut RingArray,
    tails: &mut CountArray,
    heads: &mut CountArray,
    owing: &mut CountArray,
    call: u64,
    store: &mut [u8],
) -> ArbiterAnswer
    requires { Long (given tail head cells firsts stored) }
    ensures { ArbiterLentSays (regs_in regs.old) (found tail head cells firsts stored)
        store.old (call_of call).arrival result
        (regs_in regs.new) (left tail head cells firsts stored) store.new
        × LeaveSays (regs_in regs.old) (found tail head cells firsts stored)
        (counts_found tails heads owing) store.old
        (regs_in regs.new) (left tail head cells firsts stored)
        (counts_left tails heads owing) store.new }
{
    let arrival = run_words::arrival_in(call);
    let answer = arbiter_checked::slot(
        tail, head, cells, firsts, stored, tails, heads, owing, regs, arrival, store,
    );
    tell_arbiter(answer)
}
