// The sizing rule, and the memories that sizes need: what a line card designer asks first.
#![tactic(auto)]

ghost use Rattle.std.specs.Prelude.{◌≡◌, ◌<◌};
ghost use Rattle.model.specs.Sizes.{sizes, paper_limits, accepts, cycle_time};
ghost use Rattle.sizing.specs.Says.{SizingSays, DerivedSays};

// The cycle time in ns of one of the sixteen memory grades. The bound keeps the product small.
fn cycle_time(grade: usize) -> usize
    requires { grade < 16 }
    ensures { result ≡ cycle_time grade }
{
    5 * (grade + 1)
}

// The bytes of a block at `rate` Gb/s and a memory grade: rate × cycle time / 4, rounded up. None is refusal 11.
pub fn block_size(rate: usize, grade: usize) -> Option<u8>
    ensures { SizingSays rate grade result }
{
    if !(1..=100).contains(&rate) || 15 < grade {
        return None;
    }
    let b = (rate * cycle_time(grade)).div_ceil(4);
    if 128 < b {
        return None;
    }
    Some(b as u8)
}

// Whether sizes are within the limits.
pub fn accepted(queues: usize, block: usize, depth: usize) -> bool
    ensures { result ≡ accepts paper_limits (sizes queues block depth) }
{
    (1..=64).contains(&queues)
        && (1..=128).contains(&block)
        && (1..=255).contains(&depth)
        && queues * (block - 1) <= 2016
}

// Lookahead cells, and the bytes of tail cache, head cache and slow store.
#[derive(Clone, Copy, Debug, PartialEq, Eq)]
pub struct Memory {
    pub lookahead: usize,
    pub tail: usize,
    pub head: usize,
    pub store: usize,
}

// What accepted sizes need. None is refusal 1.
pub fn memory_sizes(queues: usize, block: usize, depth: usize) -> Option<Memory>
    ensures { DerivedSays queues block depth result }
{
    if !accepted(queues, block, depth) {
        return None;
    }
    let span = queues * (block - 1);
    Some(Memory {
        lookahead: span + 1,
        tail: span + block,
        head: 2 * span + 1,
        store: queues * depth * block,
    })
}
