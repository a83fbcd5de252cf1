// The sizing rule and the memories that sizes need, for C: as crates/c_sizes has them.
ghost use Rattle.std.specs.Prelude.{◌≡◌};
ghost use Rattle.c_sizes.specs.Says.{block_or_none, memories_or_none};

use c_sizes::Memories;

// What sizes need; all 0 where they are refused.
#[unsafe(no_mangle)]
pub extern "C" fn gel_memory_sizes(queues: usize, block: usize, depth: usize) -> Memories
    ensures { result ≡ memories_or_none queues block depth }
{
    c_sizes::memories_or_none(queues, block, depth)
}

// The bytes of a block at `rate` Gb/s and a memory grade; 0 where the rule refuses them.
#[unsafe(no_mangle)]
pub extern "C" fn gel_block_size(rate: usize, grade: usize) -> usize
    ensures { result ≡ block_or_none rate grade }
{
    c_sizes::block_or_none(rate, grade)
}
