// One slot on lent arrays in which the round robin arbiter chooses: the choice, the slot of its call, and the last one
// asked noted. The arrays are lent one by one: crates/layout says why.
#![tactic(auto)]

ghost use Rattle.std.specs.Prelude.{◌≡◌};
ghost use Rattle.model.specs.Lists.{taken};
ghost use Rattle.layout.specs.Calls.{arrival_in, request_in, reply_in};
ghost use Rattle.layout.specs.Lent.{given, found, left, counts_given, counts_left};
ghost use Rattle.layout.specs.Views.{regs_in};
ghost use Rattle.slot_in_place.specs.Says.{Ready};
ghost use Rattle.arbiter_in_place.specs.Says.{noted, ArbiterAdvanceSays};

use layout::{
    Byte, Call, CellArray, CountArray, HeadArray, RegArray, Regs, Reply, RingArray, TailArray,
};

// What the arbiter asked of a slot that told this: of a refused one nothing.
fn asked_of(reply: Reply, request: Option<u8>) -> Option<u8>
    ensures { request_in result ≡ taken (reply_in reply).number (request_in request) }
{
    reply.ok().and(request)
}

// The queue that was asked, where one was, as the last one asked.
fn note(regs: &mut RegArray, asked: Option<u8>)
    ensures { regs_in regs.new ≡ noted (request_in asked) (regs_in regs.old) }
{
    if let Some(queue) = asked {
        let now = layout::regs_in(regs);
        // Each register is named, so that one more could not be forgotten here.
        layout::put_regs(
            regs,
            Regs {
                queues: now.queues,
                block: now.block,
                depth: now.depth,
                phase: now.phase,
                tail_fill: now.tail_fill,
                head_fill: now.head_fill,
                tail_mark: now.tail_mark,
                head_mark: now.head_mark,
                last_asked: queue as usize,
            },
        );
    }
}

// What the slot tells, and the queue that was asked. The last one asked does not tell it, since "none" and "the same
// again" leave the same.
#[derive(Clone, Copy)]
pub struct Arbitrated {
    pub reply: Reply,
    pub asked: Option<u8>,
}

// The slot itself is a run of one call.
pub fn advance(
    tail: &mut TailArray,
    tails: &mut CountArray,
    head: &mut HeadArray,
    heads: &mut CountArray,
    cells: &mut CellArray,
    owing: &mut CountArray,
    firsts: &mut RingArray,
    stored: &mut RingArray,
    regs: &mut RegArray,
    arrival: Option<Byte>,
    store: &mut [u8],
) -> Arbitrated
    requires { Ready (regs_in regs.old) (given tail head cells firsts stored)
        (counts_given tails heads owing) store.old }
    ensures { ArbiterAdvanceSays (regs_in regs.old) (found tail head cells firsts stored)
        store.old (arrival_in arrival) result
        (regs_in regs.new) (left tail head cells firsts stored) store.new
        × Ready (regs_in regs.new) (left tail head cells firsts stored)
        (counts_left tails heads owing) store.new }
{
    let before = layout::regs_in(regs);
    let request = arbiter_choice::choose(tails, heads, owing, stored, before, arrival);
    let calls = [run_words::call_word(Call { arrival, request })];
    let mut answers = [0u64; 1];
    let reply = run_in_place::run_calls(
        tail,
        tails,
        head,
        heads,
        cells,
        owing,
        firsts,
        stored,
        regs,
        &calls,
        &mut answers,
        store,
    );
    let asked = asked_of(reply, request);
    note(regs, asked);
    Arbitrated { reply, asked }
}
