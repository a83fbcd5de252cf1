// Slots for C callers: the state lies in arrays that the caller lends one by one, and a slot goes in place. `regs` has
// a state's registers in the order of `layout::Regs`; a call is one word (crates/run_words). Each function that judges
// leaves the counts by queue right wherever the state keeps the rules, so that `gel_step` may follow.
ghost use Rattle.std.specs.Prelude.{◌≡◌, List, ℕ, length};
ghost use Rattle.model.specs.Basics.{choose};
ghost use Rattle.model.specs.State.{margin};
ghost use Rattle.layout.specs.Calls.{reply_in, told_in};
ghost use Rattle.layout.specs.Lent.{given, found, left, counts_given, counts_found, counts_left};
ghost use Rattle.layout.specs.Lengths.{head_places, cell_places};
ghost use Rattle.layout.specs.Views.{Long, arrays, regs_in, state_in};
ghost use Rattle.slot_in_place.specs.Says.{Ready};
ghost use Rattle.slot_checked.specs.Says.{judged_number, LeaveSays};
ghost use Rattle.run_words.specs.Words.{call_of};
ghost use Rattle.run_checked.specs.Says.{RunCheckedSays};
ghost use Rattle.gelwynnar.specs.Slots.{dropped_told, told};
ghost use Rattle.gelwynnar.specs.Slots.{OpenSays, SlotLentSays, JudgeLentSays, IdleLentSays};

use layout::{
    Byte, CELL_PLACES, CellArray, CountArray, EMPTY, HEAD_PLACES, HeadArray, QUEUE_PLACES,
    RegArray, Reply, RingArray, TAIL_PLACES, TailArray, Told,
};

// What a slot answers. To C a refusal is its number, 0 where there is none, and what may be missing is a flag with a
// value beside it, here and in all that follows. Where `number` is not 0 all else is 0. `dropped` is 1 where the
// arrival was dropped (5), 2 where the request was (7), 3 where both were, else 0. `slots_left` says at a read in how
// many slots the cell leaves that the block was for, 1 to L, and is 0 where nothing is read.
#[repr(C)]
#[derive(Clone, Copy, Default)]
pub struct Answer {
    pub number: u8,
    pub dropped: u8,
    pub delivers: u8,
    pub writes: u8,
    pub reads: u8,
    pub value: u8,
    pub queue: u16,
    pub written: u16,
    pub read: u16,
    pub slots_left: u32,
}

// What a stretch of idle slots answers: how many passed, and what the last of them answered.
#[repr(C)]
#[derive(Clone, Copy, Default)]
pub struct Stretched {
    pub passed: usize,
    pub last: Answer,
}

// Which halves were dropped.
fn dropped_halves(arrival: bool, request: bool) -> u8
    ensures { result ≡ dropped_told (choose arrival 5 0) (choose request 7 0) }
{
    (arrival as u8) + 2 * (request as u8)
}

// The same by their numbers.
fn dropped_field(arrival_number: u8, request_number: u8) -> u8
    ensures { result ≡ dropped_told arrival_number request_number }
{
    dropped_halves(arrival_number != 0, request_number != 0)
}

// What a slot tells as fields. Each is read by itself: a struct that was just written field by field is slow to copy.
pub fn tell(answer: Told) -> Answer
    ensures { result ≡ told (told_in answer) }
{
    let (value, queue) = match answer.delivery {
        Some(Byte { queue, value }) => (value, queue as u16),
        None => (0, 0),
    };
    Answer {
        number: answer.number,
        dropped: dropped_field(answer.arrival_number, answer.request_number),
        delivers: answer.delivery.is_some() as u8,
        writes: answer.written.is_some() as u8,
        reads: answer.read.is_some() as u8,
        value,
        queue,
        written: answer.written.unwrap_or(0) as u16,
        read: answer.read.unwrap_or(0) as u16,
        slots_left: answer.slots_left as u32,
    }
}

// The same of a reply.
pub fn tell_reply(reply: Reply) -> Answer
    ensures { result ≡ told (reply_in reply) }
{
    tell(Told::from(reply))
}

// A fresh state of these sizes: 0, or 1 and nothing changed.
#[unsafe(no_mangle)]
pub extern "C" fn gel_open(
    queues: usize,
    block: usize,
    depth: usize,
    regs: &mut RegArray,
    tail: &mut TailArray,
    head: &mut HeadArray,
    cells: &mut CellArray,
    firsts: &mut RingArray,
    stored: &mut RingArray,
    tails: &mut CountArray,
    heads: &mut CountArray,
    owing: &mut CountArray,
) -> u8
    ensures { OpenSays queues block depth result
        regs.old (found tail head cells firsts stored) (counts_found tails heads owing)
        regs.new (left tail head cells firsts stored) (counts_left tails heads owing) }
{
    if sizing::accepted(queues, block, depth) {
        let last_asked = queues - 1;
        *regs = [queues, block, depth, 0, 0, 0, 0, 0, last_asked];
        *tail = [0; TAIL_PLACES];
        *head = [0; HEAD_PLACES];
        *cells = [EMPTY; CELL_PLACES];
        *firsts = [0; QUEUE_PLACES];
        *stored = [0; QUEUE_PLACES];
        *tails = [0; QUEUE_PLACES];
        *heads = [0; QUEUE_PLACES];
        *owing = [0; QUEUE_PLACES];
        return 0;
    }
    1
}

// One slot of a state and counts that this library left, with a store that is long enough: for a caller that knows
// both. It is a run of one call, so that the slot in place has one caller and stands in that one's loop. It is inlined
// where C calls it: by a function between, the answer is written field by field and then read as one.
#[inline(always)]
#[unsafe(no_mangle)]
pub extern "C" fn gel_step(
    regs: &mut RegArray,
    tail: &mut TailArray,
    head: &mut HeadArray,
    cells: &mut CellArray,
    firsts: &mut RingArray,
    stored: &mut RingArray,
    tails: &mut CountArray,
    heads: &mut CountArray,
    owing: &mut CountArray,
    call: u64,
    store: &mut [u8],
) -> Answer
    requires { Ready (regs_in regs.old) (given tail head cells firsts stored)
        (counts_given tails heads owing) store.old }
    ensures { SlotLentSays (regs_in regs.old) (found tail head cells firsts stored)
        store.old (call_of call) result
        (regs_in regs.new) (left tail head cells firsts stored) store.new
        × Ready (regs_in regs.new) (left tail head cells firsts stored)
        (counts_left tails heads owing) store.new }
{
    let calls = [call];
    let mut answers = [0u64; 1];
    let reply = run_in_place::run_calls(
        tail,
        tails,
        head,
        heads,
        cells,
        owing,
        firsts,
        stored,
        regs,
        &calls,
        &mut answers,
        store,
    );
    tell_reply(reply)
}

// One slot, of any state and any store; the counts need not be those of the state, and are then.
#[unsafe(no_mangle)]
pub extern "C" fn gel_slot(
    regs: &mut RegArray,
    tail: &mut TailArray,
    head: &mut HeadArray,
    cells: &mut CellArray,
    firsts: &mut RingArray,
    stored: &mut RingArray,
    tails: &mut CountArray,
    heads: &mut CountArray,
    owing: &mut CountArray,
    call: u64,
    store: &mut [u8],
) -> Answer
    requires { Long (given tail head cells firsts stored) }
    ensures { SlotLentSays (regs_in regs.old) (found tail head cells firsts stored)
        store.old (call_of call) result
        (regs_in regs.new) (left tail head cells firsts stored) store.new
        × LeaveSays (regs_in regs.old) (found tail head cells firsts stored)
        (counts_found tails heads owing) store.old
        (regs_in regs.new) (left tail head cells firsts stored)
        (counts_left tails heads owing) store.new }
{
    let before = layout::regs_in(regs);
    let judged = slot_checked::judge_state(
        tail,
        head,
        cells,
        firsts,
        stored,
        tails,
        heads,
        owing,
        before,
        store.len(),
    );
    match judged {
        Ok(()) => gel_step(
            regs, tail, head, cells, firsts, stored, tails, heads, owing, call, store,
        ),
        Err(refusal) => tell_reply(Err(refusal)),
    }
}

// Many slots, of any state and any store: as many as there are calls and places for answers. 0, or the number that each
// of them answers.
#[unsafe(no_mangle)]
pub extern "C" fn gel_run(
    regs: &mut RegArray,
    tail: &mut TailArray,
    head: &mut HeadArray,
    cells: &mut CellArray,
    firsts: &mut RingArray,
    stored: &mut RingArray,
    tails: &mut CountArray,
    heads: &mut CountArray,
    owing: &mut CountArray,
    calls: &[u64],
    answers: &mut [u64],
    store: &mut [u8],
) -> u8
    requires { Long (given tail head cells firsts stored) }
    ensures { RunCheckedSays (state_in (regs_in regs.old) (found tail head cells firsts stored))
        calls.now answers.old store.old
        (state_in (regs_in regs.new) (left tail head cells firsts stored))
        answers.new store.new
        × (result ≡ judged_number (regs_in regs.old) (found tail head cells firsts stored) store.old)
        × LeaveSays (regs_in regs.old) (found tail head cells firsts stored)
        (counts_found tails heads owing) store.old
        (regs_in regs.new) (left tail head cells firsts stored)
        (counts_left tails heads owing) store.new }
{
    let ran = run_checked::run(
        tail, head, cells, firsts, stored, tails, heads, owing, regs, calls, answers, store,
    );
    match ran {
        Ok(()) => 0,
        Err(refusal) => u8::from(refusal),
    }
}

// One stretch of at most so many idle slots, of any state and any store.
#[unsafe(no_mangle)]
pub extern "C" fn gel_idle(
    regs: &mut RegArray,
    tail: &mut TailArray,
    head: &mut HeadArray,
    cells: &mut CellArray,
    firsts: &mut RingArray,
    stored: &mut RingArray,
    tails: &mut CountArray,
    heads: &mut CountArray,
    owing: &mut CountArray,
    slots: usize,
    store: &mut [u8],
) -> Stretched
    requires { Long (given tail head cells firsts stored) }
    ensures { IdleLentSays (state_in (regs_in regs.old) (found tail head cells firsts stored))
        store.old slots result
        (state_in (regs_in regs.new) (left tail head cells firsts stored)) store.new
        × LeaveSays (regs_in regs.old) (found tail head cells firsts stored)
        (counts_found tails heads owing) store.old
        (regs_in regs.new) (left tail head cells firsts stored)
        (counts_left tails heads owing) store.new }
{
    let before = layout::regs_in(regs);
    let stretch = run_checked::idle(
        tail, head, cells, firsts, stored, tails, heads, owing, before, slots, store,
    );
    layout::put_regs(regs, stretch.regs);
    Stretched {
        passed: stretch.passed,
        last: tell_reply(stretch.reply),
    }
}

// What is judged of a slot: its number, and which halves it would drop, as in an answer.
#[repr(C)]
#[derive(Clone, Copy, Default)]
pub struct Judgement {
    pub number: u8,
    pub dropped: u8,
}

// What a slot would answer, of any state and any store of so many bytes. Nothing changes.
#[unsafe(no_mangle)]
pub extern "C" fn gel_judge<'a>(
    regs: &'a RegArray,
    tail: &'a TailArray,
    head: &'a HeadArray,
    cells: &'a CellArray,
    firsts: &'a RingArray,
    stored: &'a RingArray,
    call: u64,
    store_bytes: usize,
) -> Judgement
    requires { Long (arrays tail.now head.now cells.now firsts.now stored.now) }
    ensures { JudgeLentSays (state_in (regs_in regs.now)
        (arrays tail.now head.now cells.now firsts.now stored.now))
        store_bytes (call_of call) result }
{
    let planned = slot_checked::plan(
        tail,
        head,
        cells,
        firsts,
        stored,
        layout::regs_in(regs),
        run_words::call_in(call),
        store_bytes,
    );
    match planned {
        Ok(plan) => Judgement {
            number: 0,
            dropped: dropped_halves(plan.arrival_dropped, plan.request_dropped),
        },
        Err(refusal) => {
            let number = u8::from(refusal);
            Judgement { number, dropped: 0 }
        }
    }
}

// The margin of a queue, of any state: the other arrays have no say in it.
#[unsafe(no_mangle)]
pub extern "C" fn gel_margin<'a>(
    regs: &'a RegArray,
    head: &'a HeadArray,
    cells: &'a CellArray,
    queue: u16,
) -> i32
    requires { (length head.now ≡ head_places) × (length cells.now ≡ cell_places) }
    ensures { (tail firsts stored : List ℕ)
        → result ≡ margin (state_in (regs_in regs.now)
        (arrays tail head.now cells.now firsts stored)) queue }
{
    buffer_margin::margin_lent(regs, head, cells, queue)
}
