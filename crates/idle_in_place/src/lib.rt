// Idle slots on lent arrays, in place. A stretch is its quiet slots at once, then the one slot that may do something;
// any number of idle slots are stretches, one after the other. The arrays are lent one by one: crates/layout says why.
#![tactic(auto)]

ghost use Rattle.std.specs.Prelude.{◌≡◌, true, ◌<◌};
ghost use Rattle.model.specs.Basics.{all_of};
ghost use Rattle.model.specs.Sizes.{paper_limits, accepts, lookahead};
ghost use Rattle.model.specs.State.{cell_below};
ghost use Rattle.layout.specs.Lengths.{queue_places};
ghost use Rattle.layout.specs.Entries.{cells_in};
ghost use Rattle.layout.specs.Lent.{given, found, left, counts_given, counts_left};
ghost use Rattle.layout.specs.Views.{sizes_in, state_in};
ghost use Rattle.slot_in_place.specs.Says.{Ready};
ghost use Rattle.idle_in_place.specs.Says.{StretchSays, PassSays};

use layout::{CellArray, CountArray, HeadArray, Outcome, REGS, Regs, Reply, RingArray, TailArray};

// Quiet slots that have passed: how many, and the phase that they leave.
#[derive(Clone, Copy)]
pub struct Stretch {
    pub count: usize,
    pub phase: usize,
}

// The quiet ones of n idle slots: one shift of the cells and one turn of the phase. Where all cells are empty, only the
// phase turns.
fn pass_quiet(
    cells: &mut CellArray,
    tails: &CountArray,
    heads: &CountArray,
    regs: Regs,
    n: usize,
) -> Stretch
    requires { (accepts paper_limits (sizes_in regs) ≡ true) × (regs.phase < regs.block)
        × (all_of (cell_below queue_places) (cells_in (lookahead (sizes_in regs)) cells.old) ≡ true) }
    ensures { StretchSays regs cells.old tails.now heads.now n result
        cells.new }
{
    let l = regs.queues * (regs.block - 1) + 1;
    let empties = idle_quiet::leading_empties(cells, l);
    let due = idle_quiet::move_due(cells, tails, heads, regs, empties);
    let count = idle_quiet::quiet_count(regs, empties, due, n);
    let phase = idle_quiet::phase_after(regs, count);
    if empties != l {
        idle_quiet::shift_by(cells, l, count);
    }
    Stretch { count, phase }
}

// Where a stretch of idle slots leaves the registers, how many slots it had, and what the last of them told.
#[derive(Clone, Copy)]
pub struct Passed {
    pub regs: Regs,
    pub passed: usize,
    pub reply: Reply,
}

// One stretch of at most n idle slots: the quiet ones at once, and then, if n is not used up, one slot more.
pub fn pass(
    tail: &mut TailArray,
    head: &mut HeadArray,
    cells: &mut CellArray,
    firsts: &mut RingArray,
    stored: &mut RingArray,
    tails: &mut CountArray,
    heads: &mut CountArray,
    owing: &mut CountArray,
    regs: Regs,
    n: usize,
    store: &mut [u8],
) -> Passed
    requires { Ready regs (given tail head cells firsts stored)
        (counts_given tails heads owing) store.old }
    ensures { PassSays
        (state_in regs (found tail head cells firsts stored))
        store.old n result
        (left tail head cells firsts stored)
        (counts_left tails heads owing) store.new }
{
    let quiet = pass_quiet(cells, tails, heads, regs, n);
    // Each register is named, so that one more could not be forgotten here.
    let turned = Regs {
        queues: regs.queues,
        block: regs.block,
        depth: regs.depth,
        phase: quiet.phase,
        tail_fill: regs.tail_fill,
        head_fill: regs.head_fill,
        tail_mark: regs.tail_mark,
        head_mark: regs.head_mark,
        last_asked: regs.last_asked,
    };
    if quiet.count == n {
        return Passed {
            regs: turned,
            passed: quiet.count,
            reply: Ok(Outcome::default()),
        };
    }
    let mut lent = [0; REGS];
    layout::put_regs(&mut lent, turned);
    let calls = [0u64; 1];
    let mut answers = [0u64; 1];
    let reply = run_in_place::run_calls(
        tail,
        tails,
        head,
        heads,
        cells,
        owing,
        firsts,
        stored,
        &mut lent,
        &calls,
        &mut answers,
        store,
    );
    Passed {
        regs: layout::regs_in(&lent),
        passed: quiet.count + 1,
        reply,
    }
}
