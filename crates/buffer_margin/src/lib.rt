// "The margin of a queue is its head bytes less its Owed cells", counted in lent arrays, whatever they hold.
#![tactic(auto)]

ghost use Rattle.std.specs.Prelude.{◌≡◌, List, ℕ, ◌+◌, ◌-◌, ◌*◌, ◌/◌, ◌%◌};
ghost use Rattle.std.specs.Prelude.{◌≤◌, min, pos, ◌-ℤ◌, length, filter, nat_le, ◌==◌, ◌&&◌};
ghost use Rattle.model.specs.State as model;
ghost use Rattle.model.specs.State.{count_of, owed_of};
ghost use Rattle.layout.specs.Lengths.{head_places, cell_places};
ghost use Rattle.layout.specs.Entries.{bytes_in, cells_in};
ghost use Rattle.layout.specs.Views.{arrays, regs_in, state_in};

use layout::{CELL_PLACES, CellArray, HEAD_PLACES, HeadArray, OWED, RegArray};

// How many of the L = Q(b - 1) + 1 cells an array of 2,017 has, whatever the sizes: what is too large for a number is
// more than there are.
pub fn cells_within(queues: usize, block: usize) -> usize
    ensures { result ≡ min (queues * (block - 1) + 1) cell_places }
{
    queues
        .saturating_mul(block.saturating_sub(1))
        .saturating_add(1)
        .min(CELL_PLACES)
}

// How many entries are bytes of queue q.
fn count_of(entries: &[u16], q: u16) -> u16
    requires { length entries.now ≤ head_places }
    ensures { result ≡ length (filter (λ e. e / 256 == q) entries.now) }
{
    // A sum without a branch, which the compiler makes of many entries at once; of a filter's count it does not.
    let mut count = 0;
    for entry in entries {
        count += u16::from(entry / 256 == q);
    }
    count
}

// How many cells are Owed to queue q: `count_of` of another test, and all that there is to either is its test.
fn count_owed(cells: &[u32], q: u32) -> u16
    requires { length cells.now ≤ cell_places }
    ensures { result ≡ length (filter (λ c. nat_le 131072 c && (c / 256 % 256 == q)) cells.now) }
{
    let mut count = 0;
    for &cell in cells {
        count += u16::from((OWED <= cell) & (cell / 256 % 256 == q));
    }
    count
}

// Where the fill is past its array, the bytes are those of the array, and the cells likewise.
pub fn margin(
    head: &HeadArray,
    cells: &CellArray,
    fill: usize,
    queues: usize,
    block: usize,
    queue: u16,
) -> i32
    ensures { result ≡ pos (count_of queue (bytes_in fill head.now))
        -ℤ pos (owed_of queue (cells_in (queues * (block - 1) + 1) cells.now)) }
{
    let bytes = count_of(&head[..fill.min(HEAD_PLACES)], queue);
    let owed = count_owed(&cells[..cells_within(queues, block)], queue as u32);
    (bytes as i32) - (owed as i32)
}

// The same of a state whose registers are lent: the other arrays have no say in it.
pub fn margin_lent(regs: &RegArray, head: &HeadArray, cells: &CellArray, queue: u16) -> i32
    ensures { (tail firsts stored : List ℕ)
        → result ≡ model.margin (state_in (regs_in regs.now)
        (arrays tail head.now cells.now firsts stored)) queue }
{
    let now = layout::regs_in(regs);
    margin(head, cells, now.head_fill, now.queues, now.block, queue)
}
