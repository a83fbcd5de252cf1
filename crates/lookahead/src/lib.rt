// Operations on the lookahead that is lent as an array of cells. Each has one loop at most, and its contract gives what
// the array then holds by the model's own definition.
#![tactic(auto)]

ghost use Rattle.std.specs.Prelude.{◌≡◌, true, ℕ, ◌-◌, ◌≤◌, ◌<◌, length, drop};
ghost use Rattle.model.specs.Basics.{all_of};
ghost use Rattle.model.specs.State.{owed, cell_below};
ghost use Rattle.layout.specs.Lengths.{cell_places, queue_places};
ghost use Rattle.layout.specs.Entries.{counts_in, cell_of, cells_in};
ghost use Rattle.layout.specs.Calls.{chosen_in};
ghost use Rattle.layout.specs.Counts.{CountsAre, TallyOwed};
ghost use Rattle.lookahead.specs.Says.{Shifted, EmptyTo, Scanned, spent};

use layout::{CountArray, HELD, OWED, QUEUE_PLACES};

// The oldest of l cells leaves, and `cell` comes in as the youngest.
pub fn shift(cells: &mut [u32], l: usize, cell: u32)
    requires { (1 ≤ l) × (l ≤ length cells.old) }
    ensures { Shifted l cell cells.old cells.new }
{
    cells.copy_within(1..l, 0);
    cells[l - 1] = cell;
}

// Where a scan stopped: at a queue's cell, or behind the last one; which place that is, and the credits that it left.
#[derive(Drop)]
pub struct Stopped {
    pub found: Option<u8>,
    pub place: usize,
    pub left: CountArray,
}

// A place up to which the cells from `from` on are empty. They are looked at by two with one test, so that an empty
// lookahead is passed in half the time; a test for each would be guessed wrongly where empty cells come now and then.
// The place is counted by hand: a chain over `chunks_exact(2)` takes half as long again.
fn past_empties(cells: &[u32], from: usize, l: usize) -> usize
    requires { (from ≤ l) × (l ≤ length cells.now) }
    ensures { EmptyTo from result l cells.now }
{
    let mut i = from;
    while i + 1 < l {
        let c = cells[i];
        let next = cells[i + 1];
        if HELD as u64 <= (c as u64) + (next as u64) {
            return i;
        }
        i += 2;
    }
    i
}

// Scans the cells from `from` to l, and stops at the first Owed cell that its queue's credits do not cover. The place
// goes on by as many cells as are passed at once, so it is counted by hand.
pub fn scan(cells: &[u32], from: usize, l: usize, credits: CountArray) -> Stopped
    requires { (from ≤ l) × (l ≤ length cells.now)
        × (all_of (cell_below queue_places) (cells_in l cells.now) ≡ true) }
    ensures { Scanned (counts_in credits) (drop from (cells_in l cells.now))
        (chosen_in result.found) (result.place - from) (counts_in result.left)
        × (from ≤ result.place) × (result.place ≤ l) }
{
    let mut left = credits;
    let mut i = from;
    let found = loop {
        if i == l {
            break None;
        }
        let c = cells[i];
        if HELD <= c {
            // Whether the cell is Held or Owed is reckoned with: no branch goes by it.
            let q = (c / 256 % 256) as usize;
            let owes = (OWED <= c) as u16;
            if left[q] < owes {
                break Some(q as u8);
            }
            left[q] -= owes;
            i += 1;
        } else {
            i = past_empties(cells, i + 1, l);
        }
    };
    Stopped {
        found: found,
        place: i,
        left: left,
    }
}

// Of each queue its Owed cells among the first n. `caches::tally` differs in what counts and of which queue: one function
// over closures for both would be no plainer, with their contracts to state.
pub fn tally_owed(cells: &[u32], n: usize) -> CountArray
    requires { (n ≤ cell_places) × (n ≤ length cells.now)
        × (all_of (cell_below queue_places) (cells_in n cells.now) ≡ true) }
    ensures { TallyOwed result (cells_in n cells.now) }
{
    let mut counts = [0u16; QUEUE_PLACES];
    for &cell in &cells[..n] {
        if OWED <= cell {
            let q = (cell / 256 % 256) as usize;
            counts[q] += 1;
        }
    }
    counts
}

// A leaving Owed cell takes one from its queue's count.
pub fn spend(counts: &mut CountArray, leaving: u32)
    requires { (length counts.old ≡ queue_places)
        × ((q : ℕ) → cell_of leaving ≡ owed q → (q < queue_places) × (1 ≤ counts_in counts.old q)) }
    ensures { CountsAre counts.new (spent (counts_in counts.old) (cell_of leaving)) }
{
    if OWED <= leaving {
        let q = (leaving / 256 % 256) as usize;
        counts[q] -= 1;
    }
}

// Whether the first n cells are all empty or of queues below `queues`; `caches::all_below` is the same chain over another
// test.
pub fn all_below(cells: &[u32], n: usize, queues: usize) -> bool
    requires { n ≤ length cells.now }
    ensures { result ≡ all_of (cell_below queues) (cells_in n cells.now) }
{
    cells[..n].iter().all(|&cell| !(HELD <= cell && queues <= (cell / 256 % 256) as usize))
}
