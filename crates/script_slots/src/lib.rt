// Slots run in place, and their lines put into a lent output: one slot, idle slots, the slots of one command. The
// arrays are lent one by one: crates/layout says why.
#![tactic(auto)]

ghost use Rattle.std.specs.Prelude.{◌≡◌, [], ◌∷◌, ◌+◌, ◌≤◌, length, Ok};
ghost use Rattle.model.specs.Basics.{choose};
ghost use Rattle.model.specs.Calls.{idles};
ghost use Rattle.layout.specs.Calls.{call_in, delivery_in, refill_in, reply_in};
ghost use Rattle.layout.specs.Lent.{given, found, left, counts_given, counts_left};
ghost use Rattle.layout.specs.Views.{state_in};
ghost use Rattle.slot_in_place.specs.Says.{Ready};
ghost use Rattle.script_commands.specs.Values.{command_in};
ghost use Rattle.script_lines.specs.Lines.{text};
ghost use Rattle.script_lines.specs.Says.{PutSays};
ghost use Rattle.script_text.specs.Run.{slots_of, answer_lines, delivery_lines, half_lines, refill_lines};
ghost use Rattle.script_slots.specs.Says.{AnswerFits, AnswerSays, RunsOn, Room, wanted_in};

use layout::{
    Byte, Call, CellArray, CountArray, HeadArray, Outcome, REGS, Refill, Regs, Reply, RingArray,
    TailArray,
};
use script_commands::Command;

// How far a run has come: the registers of the state, the slots accepted, the place in the output.
#[derive(Clone, Copy)]
pub struct Progress {
    pub regs: Regs,
    pub slots: u64,
    pub place: usize,
}

// Behind a slot's lines: how many slots have been accepted with it, the place in the output.
#[derive(Clone, Copy)]
struct AnswerPut {
    slots: u64,
    place: usize,
}

// D for a byte that is delivered; without one nothing.
fn put_delivered(output: &mut [u8], place: usize, slots: u64, delivery: Option<Byte>) -> usize
    requires { place + length (text (delivery_lines slots (delivery_in delivery))) ≤ length output.old }
    ensures { PutSays (text (delivery_lines slots (delivery_in delivery))) place output.old result
        output.new }
{
    match delivery {
        Some(byte) => script_lines::put_delivery(output, place, slots, byte.queue, byte.value),
        None => place,
    }
}

// R for a half of a slot that was dropped, with its number; nothing for one that was not.
fn put_half(output: &mut [u8], place: usize, slots: u64, dropped: bool, number: u8) -> usize
    requires { (1 ≤ number)
        × (place + length (text (half_lines slots (choose dropped number 0))) ≤ length output.old) }
    ensures { PutSays (text (half_lines slots (choose dropped number 0))) place output.old result output.new }
{
    if dropped {
        return script_lines::put_refusal(output, place, slots, number);
    }
    place
}

// M for a block that is read, with the slots left; without one nothing.
fn put_refilled(output: &mut [u8], place: usize, slots: u64, read: Option<Refill>) -> usize
    requires { place + length (text (refill_lines slots (refill_in read).queue (refill_in read).slots_left))
        ≤ length output.old }
    ensures { PutSays (text (refill_lines slots (refill_in read).queue (refill_in read).slots_left)) place
        output.old result output.new }
{
    match read {
        Some(refill) => script_lines::put_refill(
            output,
            place,
            slots,
            refill.queue,
            refill.slots_left,
        ),
        None => place,
    }
}

// The lines of one slot that did this: D before R, the arrival's R before the request's, M last.
fn put_outcome(output: &mut [u8], place: usize, slots: u64, outcome: Outcome) -> usize
    requires { place + length (text (answer_lines slots (reply_in (Ok outcome)))) ≤ length output.old }
    ensures { PutSays (text (answer_lines slots (reply_in (Ok outcome)))) place output.old result output.new }
{
    let behind_delivery = put_delivered(output, place, slots, outcome.delivery);
    let behind_arrival = put_half(output, behind_delivery, slots, outcome.arrival_dropped, 5);
    let behind_request = put_half(output, behind_arrival, slots, outcome.request_dropped, 7);
    put_refilled(output, behind_request, slots, outcome.read)
}

// The lines of one slot that tells this, and the count on. A slot that was refused has its R alone, and does not count.
fn put_answer(output: &mut [u8], place: usize, slots: u64, reply: Reply) -> AnswerPut
    requires { AnswerFits slots (reply_in reply) place output.old }
    ensures { AnswerSays slots (reply_in reply) place output.old result output.new }
{
    match reply {
        Ok(outcome) => {
            let behind = put_outcome(output, place, slots, outcome);
            AnswerPut {
                slots: slots + 1,
                place: behind,
            }
        }
        Err(refusal) => {
            let behind = script_lines::put_refusal(output, place, slots, u8::from(refusal));
            AnswerPut {
                slots,
                place: behind,
            }
        }
    }
}

// One slot.
fn run_slot(
    tail: &mut TailArray,
    head: &mut HeadArray,
    cells: &mut CellArray,
    firsts: &mut RingArray,
    stored: &mut RingArray,
    tails: &mut CountArray,
    heads: &mut CountArray,
    owing: &mut CountArray,
    start: Progress,
    call: Call,
    store: &mut [u8],
    output: &mut [u8],
) -> Progress
    requires { Ready start.regs (given tail head cells firsts stored)
        (counts_given tails heads owing) store.old
        × Room (state_in start.regs (given tail head cells firsts stored))
        store.old (call_in call ∷ []) start.slots start.place output.old }
    ensures { RunsOn
        (state_in start.regs (found tail head cells firsts stored))
        store.old (call_in call ∷ []) start.slots start.place output.old result
        (left tail head cells firsts stored)
        (counts_left tails heads owing) store.new output.new }
{
    let regs = start.regs;
    let mut lent = [0; REGS];
    layout::put_regs(&mut lent, regs);
    let calls = [run_words::call_word(call)];
    let mut answers = [0u64; 1];
    let reply = run_in_place::run_calls(
        tail,
        tails,
        head,
        heads,
        cells,
        owing,
        firsts,
        stored,
        &mut lent,
        &calls,
        &mut answers,
        store,
    );
    let next = layout::regs_in(&lent);
    let put = put_answer(output, start.place, start.slots, reply);
    Progress {
        regs: next,
        slots: put.slots,
        place: put.place,
    }
}

// Exactly n idle slots, stretch by stretch: all but the last of a stretch are quiet, and print nothing. A refused one
// prints its line and is one of the n.
fn run_idles(
    tail: &mut TailArray,
    head: &mut HeadArray,
    cells: &mut CellArray,
    firsts: &mut RingArray,
    stored: &mut RingArray,
    tails: &mut CountArray,
    heads: &mut CountArray,
    owing: &mut CountArray,
    start: Progress,
    n: usize,
    store: &mut [u8],
    output: &mut [u8],
) -> Progress
    requires { Ready start.regs (given tail head cells firsts stored)
        (counts_given tails heads owing) store.old
        × Room (state_in start.regs (given tail head cells firsts stored))
        store.old (idles n) start.slots start.place output.old }
    ensures { RunsOn
        (state_in start.regs (found tail head cells firsts stored))
        store.old (idles n) start.slots start.place output.old result
        (left tail head cells firsts stored)
        (counts_left tails heads owing) store.new output.new }
{
    let mut reached = start;
    let mut left = n;
    // A stretch has as many slots as are quiet, so that no range counts them.
    while 0 < left {
        let regs = reached.regs;
        let stretch = idle_in_place::pass(
            tail, head, cells, firsts, stored, tails, heads, owing, regs, left, store,
        );
        let before_last = reached.slots + (stretch.passed - 1) as u64;
        let put = put_answer(output, reached.place, before_last, stretch.reply);
        reached = Progress {
            regs: stretch.regs,
            slots: put.slots,
            place: put.place,
        };
        left -= stretch.passed;
    }
    reached
}

// The slots of a command: one, or so many idle ones.
#[derive(Clone, Copy)]
enum Wanted {
    One(Call),
    Many(usize),
}

// The slots that a command stands for.
fn slots_of(command: Command) -> Wanted
    ensures { wanted_in result ≡ slots_of (command_in command) }
{
    match command {
        Command::Sizes(_, _, _) => Wanted::Many(0),
        Command::Idle => Wanted::One(Call::default()),
        Command::Arrive(queue, value) => Wanted::One(Call {
            arrival: Some(Byte { queue, value }),
            request: None,
        }),
        Command::Ask(queue) => Wanted::One(Call {
            arrival: None,
            request: Some(queue),
        }),
        Command::Both(queue, value, asked) => Wanted::One(Call {
            arrival: Some(Byte { queue, value }),
            request: Some(asked),
        }),
        Command::Idles(count) => Wanted::Many(count as usize),
        Command::End => Wanted::Many(0),
    }
}

// The slots of one command.
pub fn run_command(
    tail: &mut TailArray,
    head: &mut HeadArray,
    cells: &mut CellArray,
    firsts: &mut RingArray,
    stored: &mut RingArray,
    tails: &mut CountArray,
    heads: &mut CountArray,
    owing: &mut CountArray,
    start: Progress,
    command: Command,
    store: &mut [u8],
    output: &mut [u8],
) -> Progress
    requires { Ready start.regs (given tail head cells firsts stored)
        (counts_given tails heads owing) store.old
        × Room (state_in start.regs (given tail head cells firsts stored))
        store.old (slots_of (command_in command)) start.slots start.place output.old }
    ensures { RunsOn
        (state_in start.regs (found tail head cells firsts stored))
        store.old (slots_of (command_in command)) start.slots start.place output.old result
        (left tail head cells firsts stored)
        (counts_left tails heads owing) store.new output.new }
{
    match slots_of(command) {
        Wanted::One(call) => run_slot(
            tail, head, cells, firsts, stored, tails, heads, owing, start, call, store, output,
        ),
        Wanted::Many(n) => run_idles(
            tail, head, cells, firsts, stored, tails, heads, owing, start, n, store, output,
        ),
    }
}
