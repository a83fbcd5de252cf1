// How a state lies in registers and arrays, and what a slot is asked and answers: values, types and lengths that the
// crates above share.
#![tactic(auto)]

ghost use Rattle.std.specs.Prelude.{◌≡◌, ◌<◌};
ghost use Rattle.model.specs.Slot.{number_alone};
ghost use Rattle.layout.specs.Calls.{chosen_in, refill_at, refill_in, number_of, reply_in, told_in};
ghost use Rattle.layout.specs.Example.{ExampleReads};
ghost use Rattle.layout.specs.Views.{regs_in};

/// A byte of a queue, as it arrives and as it leaves.
#[derive(Clone, Copy, PartialEq, Eq, Debug)]
pub struct Byte {
    pub queue: u8,
    pub value: u8,
}

/// What a slot is asked: the byte that arrives, and the queue that a byte is requested of.
#[derive(Clone, Copy, PartialEq, Eq, Debug, Default)]
pub struct Call {
    pub arrival: Option<Byte>,
    pub request: Option<u8>,
}

/// A block that is read: its queue, and in how many slots the cell leaves that it is for.
#[derive(Clone, Copy, PartialEq, Eq, Debug)]
pub struct Refill {
    pub queue: u8,
    pub slots_left: u16,
}

// The choice of a queue for the cell at a place, the oldest being 1. Without a queue the place is not looked at.
pub fn refill_at(queue: Option<u8>, place: usize) -> Option<Refill>
    requires { place < 65536 }
    ensures { refill_in result ≡ refill_at (chosen_in queue) place }
{
    let queue = queue?;
    Some(Refill {
        queue,
        slots_left: place as u16,
    })
}

/// What a slot does that is not refused: whether it drops its arrival (the paper's 5) and its request (7), what it
/// delivers, the queue that it writes a block of, the block that it reads.
#[derive(Clone, Copy, PartialEq, Eq, Debug, Default)]
pub struct Outcome {
    pub arrival_dropped: bool,
    pub request_dropped: bool,
    pub delivery: Option<Byte>,
    pub written: Option<u8>,
    pub read: Option<Refill>,
}

/// Why a state is not made, or a slot does not happen: the paper's numbers, and from 20 on those of the packet layer.
#[derive(Clone, Copy, PartialEq, Eq, Debug)]
pub enum Refusal {
    /// The sizes are not within the limits.
    Sizes = 1,
    /// The store is too short for the sizes.
    ShortStore = 2,
    /// The state breaks a rule.
    BrokenRules = 3,
    /// The arrival's queue is not one of the state's.
    UnknownArrival = 4,
    /// The request's queue is not one of the state's.
    UnknownRequest = 6,
    /// The cell that leaves is Owed, and the head has no byte of its queue.
    ByteMissing = 8,
    /// The tail has no place for the arrival.
    TailFull = 9,
    /// The head has no place for the block that is read.
    HeadFull = 10,
    /// A packet's length is out of the range, or a byte comes next of no packet.
    PacketLength = 20,
    /// A packet starts while another one comes in, or its queue's list is full.
    PacketPlace = 21,
    /// A packet is longer than its queue's free store.
    PacketRoom = 22,
}

impl From<Refusal> for u8 {
    ghost from_gives = { λ refusal n. n ≡ number_of refusal };

    fn from(refusal: Refusal) -> u8 {
        refusal as u8
    }
}

/// What a slot tells: what it did, or why it was refused.
pub type Reply = Result<Outcome, Refusal>;

/// What a slot tells in numbers, as C and the words of a run have it: the number that stopped it or 0, those of its
/// halves, 5 and 7 or 0, the delivery, the queues written and read, and at a read in how many slots the cell leaves that
/// it was for, else 0. Each may hold any number.
#[derive(Clone, Copy, PartialEq, Eq, Debug)]
pub struct Told {
    pub number: u8,
    pub arrival_number: u8,
    pub request_number: u8,
    pub delivery: Option<Byte>,
    pub written: Option<u8>,
    pub read: Option<u8>,
    pub slots_left: u16,
}

// A number, and nothing else to tell.
pub fn number_alone(number: u8) -> Told
    ensures { told_in result ≡ number_alone number }
{
    Told {
        number,
        arrival_number: 0,
        request_number: 0,
        delivery: None,
        written: None,
        read: None,
        slots_left: 0,
    }
}

impl From<Reply> for Told {
    ghost from_gives = { λ reply told. told_in told ≡ reply_in reply };

    fn from(reply: Reply) -> Told {
        match reply {
            Ok(outcome) => Told {
                number: 0,
                arrival_number: if outcome.arrival_dropped { 5 } else { 0 },
                request_number: if outcome.request_dropped { 7 } else { 0 },
                delivery: outcome.delivery,
                written: outcome.written,
                read: outcome.read.map(|block| block.queue),
                slots_left: outcome.read.map_or(0, |block| block.slots_left),
            },
            Err(refusal) => number_alone(u8::from(refusal)),
        }
    }
}

// A cell is kind × 65,536 + queue × 256 + value: below `HELD` it is empty, from `OWED` on it is Owed.
pub const EMPTY: u32 = 0;

pub const HELD: u32 = 65536;

pub const OWED: u32 = 131072;

// How long the arrays of a state are (specs/Lengths.antt). A cache's array has one place more than the largest cache,
// so that a fill past its end breaks the paper's own rule.
pub const TAIL_PLACES: usize = 2144;

pub const HEAD_PLACES: usize = 4034;

pub const CELL_PLACES: usize = 2017;

pub const QUEUE_PLACES: usize = 64;

// C callers lend each array by itself, and there is no heap: so a cache is an array with its fill beside it among the
// registers, and what there is of each queue lies in an array for each number. What runs slots takes them one by one as
// well: a struct of borrows is taken apart and put together again wherever one of them is lent on, which is longer.

// A byte of a cache is queue × 256 + value.
pub type TailArray = [u16; TAIL_PLACES];

pub type HeadArray = [u16; HEAD_PLACES];

pub type CellArray = [u32; CELL_PLACES];

// Of each queue one number of its ring, the first block or the blocks stored; and a count of its bytes or cells.
pub type RingArray = [u8; QUEUE_PLACES];

pub type CountArray = [u16; QUEUE_PLACES];

/// Counts by queue, which are kept beside a state: tail bytes, head bytes, Owed cells.
#[derive(Clone, Copy)]
pub struct QueueCounts {
    pub tails: CountArray,
    pub heads: CountArray,
    pub owing: CountArray,
}

// Sizes, phase, fills, high marks and the last one asked: all of a state but its arrays. `block` is bytes to a block,
// `depth` blocks to a queue's ring, `last_asked` the queue that the round robin arbiter asked last.
#[derive(Clone, Copy)]
pub struct Regs {
    pub queues: usize,
    pub block: usize,
    pub depth: usize,
    pub phase: usize,
    pub tail_fill: usize,
    pub head_fill: usize,
    pub tail_mark: usize,
    pub head_mark: usize,
    pub last_asked: usize,
}

// The registers where a caller lends them, in the same order.
pub const REGS: usize = 9;

pub type RegArray = [usize; REGS];

// The registers that an array holds.
pub fn regs_in(regs: &RegArray) -> Regs
    ensures { result ≡ regs_in regs.now }
{
    Regs {
        queues: regs[0],
        block: regs[1],
        depth: regs[2],
        phase: regs[3],
        tail_fill: regs[4],
        head_fill: regs[5],
        tail_mark: regs[6],
        head_mark: regs[7],
        last_asked: regs[8],
    }
}

pub fn put_regs(regs: &mut RegArray, next: Regs)
    ensures { regs_in regs.new ≡ next }
{
    *regs = [
        next.queues,
        next.block,
        next.depth,
        next.phase,
        next.tail_fill,
        next.head_fill,
        next.tail_mark,
        next.head_mark,
        next.last_asked,
    ];
}

// A small state, its call and its answer, read out of registers, arrays and values.
pub fn example_reads()
    ensures { ExampleReads }
{}
