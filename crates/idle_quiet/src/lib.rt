// Many idle slots at once: what a run needs to know of how many of them are quiet, and the shift and the turn that they
// come to.
#![tactic(auto)]

ghost use Rattle.std.specs.Prelude.{◌≡◌, true, ◌+◌, ◌%◌, ◌≤◌, ◌<◌, length};
ghost use Rattle.model.specs.Basics.{all_of};
ghost use Rattle.model.specs.Sizes.{paper_limits, accepts, lookahead};
ghost use Rattle.model.specs.State.{cell_below};
ghost use Rattle.model.specs.Idle.{leading_empties, move_due, quiet_of};
ghost use Rattle.layout.specs.Lengths.{cell_places, queue_places};
ghost use Rattle.layout.specs.Entries.{counts_in, cells_in};
ghost use Rattle.layout.specs.Calls.{chosen_in};
ghost use Rattle.layout.specs.Views.{sizes_in};
ghost use Rattle.idle_quiet.specs.Says.{ShiftedBy};

use layout::{CellArray, CountArray, HELD, Regs};

// How many of the first l cells are empty before the first that is not.
pub fn leading_empties(cells: &CellArray, l: usize) -> usize
    requires { (l ≤ cell_places) × (length cells.now ≡ cell_places) }
    ensures { result ≡ leading_empties (cells_in l cells.now) }
{
    cells[..l]
        .iter()
        .position(|&cell| HELD <= cell)
        .unwrap_or(l)
}

// The m oldest of l cells leave, and as many empty ones come.
pub fn shift_by(cells: &mut CellArray, l: usize, m: usize)
    requires { (m ≤ l) × (l ≤ cell_places) × (length cells.old ≡ cell_places) }
    ensures { ShiftedBy l m cells.old cells.new }
{
    cells.copy_within(m..l, 0);
    cells[l - m..l].fill(0);
}

// Whether a move would find a queue to write or a queue to read; the scan starts behind the leading empty cells.
pub fn move_due(
    cells: &CellArray,
    tails: &CountArray,
    heads: &CountArray,
    regs: Regs,
    empties: usize,
) -> bool
    requires { (accepts paper_limits (sizes_in regs) ≡ true)
        × (all_of (cell_below queue_places) (cells_in (lookahead (sizes_in regs)) cells.now) ≡ true)
        × (empties ≡ leading_empties (cells_in (lookahead (sizes_in regs)) cells.now)) }
    ensures { result ≡ move_due (sizes_in regs) (counts_in tails.now) (counts_in heads.now)
        (cells_in (lookahead (sizes_in regs)) cells.now) }
{
    caches::fullest_of(tails, regs.queues, regs.block as u16).is_some()
        || lookahead::scan(cells, empties, regs.queues * (regs.block - 1) + 1, *heads)
            .found
            .is_some()
}

// How many of n idle slots are surely quiet, where so many leading cells are empty and `due` says whether a move may
// find something.
pub fn quiet_count(regs: Regs, empties: usize, due: bool, n: usize) -> usize
    requires { (accepts paper_limits (sizes_in regs) ≡ true) × (regs.phase < regs.block) }
    ensures { result ≡ quiet_of (sizes_in regs) regs.phase empties due n }
{
    if due {
        return n.min(empties.min(regs.block - 1 - regs.phase));
    }
    if empties == regs.queues * (regs.block - 1) + 1 {
        return n;
    }
    n.min(empties)
}

// The phase m slots later.
pub fn phase_after(regs: Regs, m: usize) -> usize
    requires { (accepts paper_limits (sizes_in regs) ≡ true) × (regs.phase < regs.block) }
    ensures { result ≡ (regs.phase + m) % regs.block }
{
    (regs.phase + m % regs.block) % regs.block
}
