// The sizing rule and the memories that sizes need.
#![tactic(auto)]

ghost use Rattle.std.specs.Prelude.{◌≡◌};
ghost use Rattle.c_sizes.specs.Says.{block_or_none, memories_in, memories_or_none};

use sizing::Memory;

// The memories of a line card in bytes, the lookahead in cells; all 0 where the sizes are refused.
#[repr(C)]
#[derive(Clone, Copy, Debug, Default, PartialEq, Eq)]
pub struct Memories {
    pub lookahead: usize,
    pub tail: usize,
    pub head: usize,
    pub store: usize,
}

impl From<Memory> for Memories {
    ghost from_gives = { λ memory result. result ≡ memories_in memory };

    fn from(memory: Memory) -> Memories {
        Memories {
            lookahead: memory.lookahead,
            tail: memory.tail,
            head: memory.head,
            store: memory.store,
        }
    }
}

// What sizes need.
pub fn memories_or_none(queues: usize, block: usize, depth: usize) -> Memories
    ensures { result ≡ memories_or_none queues block depth }
{
    sizing::memory_sizes(queues, block, depth)
        .map(Memories::from)
        .unwrap_or_default()
}

// The bytes of a block at `rate` Gb/s and a memory grade; 0 where the rule refuses them.
pub fn block_or_none(rate: usize, grade: usize) -> usize
    ensures { result ≡ block_or_none rate grade }
{
    sizing::block_size(rate, grade).map_or(0, usize::from)
}
