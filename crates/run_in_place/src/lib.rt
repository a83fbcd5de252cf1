// Many slots in one call, in place: no copy of the state per slot, the calls in a lent slice, an answer for each in
// another. The arrays are lent one by one: crates/layout says why.
#![tactic(auto)]

ghost use Rattle.std.specs.Prelude.{map, ◌≤◌, length};
ghost use Rattle.layout.specs.Lent.{given, found, left, counts_given, counts_left};
ghost use Rattle.layout.specs.Views.{regs_in, state_in};
ghost use Rattle.slot_in_place.specs.Says.{Ready, AsGiven};
ghost use Rattle.run_words.specs.Words.{call_of};
ghost use Rattle.run_in_place.specs.Says.{advanced_in, advanced_to, CalledSays, RunInPlaceSays, OneCallSays};

use layout::{
    CellArray, CountArray, HeadArray, Outcome, RegArray, Regs, Reply, RingArray, TailArray,
};

// Where a slot of a run leaves the registers, what it tells, and that as one number.
#[derive(Clone, Copy)]
pub struct Called {
    pub regs: Regs,
    pub reply: Reply,
    pub word: u64,
}

// One slot whose call and answer are numbers.
pub fn answer_call(
    tail: &mut TailArray,
    head: &mut HeadArray,
    cells: &mut CellArray,
    firsts: &mut RingArray,
    stored: &mut RingArray,
    tails: &mut CountArray,
    heads: &mut CountArray,
    owing: &mut CountArray,
    regs: Regs,
    call: u64,
    store: &mut [u8],
) -> Called
    requires { Ready regs (given tail head cells firsts stored)
        (counts_given tails heads owing) store.old }
    ensures { CalledSays
        (state_in regs (found tail head cells firsts stored))
        store.old (call_of call) result
        (left tail head cells firsts stored)
        (counts_left tails heads owing) store.new
        × AsGiven regs (found tail head cells firsts stored) (advanced_in result) (left tail head cells firsts stored) }
{
    let call = run_words::call_in(call);
    let advanced = slot_in_place::advance(
        tail, head, cells, firsts, stored, tails, heads, owing, regs, call, store,
    );
    Called {
        regs: advanced.regs,
        reply: advanced.reply,
        word: run_words::reply_word(advanced.reply),
    }
}

// The slots of all calls, in order, and what the last of them told. It is the only caller of the slot in place, so
// that the compiler puts the slot into its loop; whoever wants one slot runs one call. For that caller's sake the
// registers are lent, to be read once and put back once, and each array of counts stands beside what it counts: a record
// of registers, and three pointers that come over the stack and go on over it, are both copied by pairs, and a pair that
// was just written one by one must wait (docs/DECISIONS.md, L8).
pub fn run_calls(
    tail: &mut TailArray,
    tails: &mut CountArray,
    head: &mut HeadArray,
    heads: &mut CountArray,
    cells: &mut CellArray,
    owing: &mut CountArray,
    firsts: &mut RingArray,
    stored: &mut RingArray,
    regs: &mut RegArray,
    calls: &[u64],
    answers: &mut [u64],
    store: &mut [u8],
) -> Reply
    requires { Ready (regs_in regs.old) (given tail head cells firsts stored)
        (counts_given tails heads owing) store.old
        × (length calls.now ≤ length answers.old) }
    ensures { RunInPlaceSays
        (state_in (regs_in regs.old) (found tail head cells firsts stored))
        store.old (map call_of calls.now) answers.old answers.new
        (state_in (regs_in regs.new) (left tail head cells firsts stored))
        store.new
        × Ready (regs_in regs.new) (left tail head cells firsts stored)
        (counts_left tails heads owing) store.new
        × OneCallSays (regs_in regs.old) (found tail head cells firsts stored) store.old
        (map call_of calls.now) (advanced_to (regs_in regs.new) result)
        (left tail head cells firsts stored) (counts_left tails heads owing) store.new }
{
    let mut last = Called {
        regs: layout::regs_in(regs),
        reply: Ok(Outcome::default()),
        word: 0,
    };
    for (i, &call) in calls.iter().enumerate() {
        last = answer_call(
            tail, head, cells, firsts, stored, tails, heads, owing, last.regs, call, store,
        );
        answers[i] = last.word;
    }
    layout::put_regs(regs, last.regs);
    last.reply
}
