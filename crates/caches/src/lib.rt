// Operations on a cache that is lent as an array of entries, and on counts by queue. None has a loop inside another,
// and each contract gives what the array then holds by the model's own definition.
#![tactic(auto)]

ghost use Rattle.std.specs.Prelude.{◌≡◌, true, false, ◌+◌, ◌≤◌, ◌<◌, length};
ghost use Rattle.model.specs.Basics.{all_of};
ghost use Rattle.model.specs.State.{count_of, byte_below};
ghost use Rattle.model.specs.Slot.{fullest};
ghost use Rattle.layout.specs.Lengths.{head_places, queue_places};
ghost use Rattle.layout.specs.Entries.{bytes_in, counts_in};
ghost use Rattle.layout.specs.Calls.{chosen_in};
ghost use Rattle.caches.specs.Says.{NoneOf, place_of, ClosedUp, TookOldest, JoinedBy, WroteOut, ReadIn};
ghost use Rattle.layout.specs.Counts.{Tally};

use layout::{CountArray, QUEUE_PLACES};

// Whether an entry of a chunk is of queue q: a fold with no early end, fit for vector instructions.
fn has_queue(chunk: &[u16], q: u16) -> bool
    ensures { result ≡ false → NoneOf q chunk.now 0 (length chunk.now) }
{
    chunk
        .iter()
        .fold(false, |found, entry| found | (entry / 256 == q))
}

// A place before which no entry is of queue q: that of the first chunk which has one, or the end of the chunks.
fn skip_to(entries: &[u16], q: u16) -> usize
    ensures { (result ≤ length entries.now) × NoneOf q entries.now 0 result }
{
    match entries
        .chunks_exact(32)
        .position(|chunk| has_queue(chunk, q))
    {
        Some(chunks) => chunks * 32,
        None => entries.len() / 32 * 32,
    }
}

// The place of the oldest byte of queue q among the first n, or n.
pub fn place_of(entries: &[u16], n: usize, q: u16) -> usize
    requires { n ≤ length entries.now }
    ensures { result ≡ place_of q (bytes_in n entries.now) }
{
    let entries = &entries[..n];
    let start = skip_to(entries, q);
    match entries[start..].iter().position(|entry| entry / 256 == q) {
        Some(further) => start + further,
        None => n,
    }
}

// The entries after place p, up to n, move down by one. They do within a part of their own, so that this compiles to one
// `memmove`.
pub fn close_up(entries: &mut [u16], p: usize, n: usize)
    requires { (p < n) × (n ≤ length entries.old) }
    ensures { ClosedUp p n entries.old entries.new }
{
    entries[p..n].copy_within(1.., 0);
}

// The oldest byte of queue q leaves the first n, and its value is returned.
pub fn take_oldest(entries: &mut [u16], n: usize, q: u16) -> u8
    requires { (n ≤ length entries.old) × (1 ≤ count_of q (bytes_in n entries.old)) }
    ensures { TookOldest n q entries.old entries.new result }
{
    let p = place_of(entries, n, q);
    let e = entries[p];
    close_up(entries, p, n);
    (e % 256) as u8
}

// A byte of queue q joins the first n.
pub fn join(entries: &mut [u16], n: usize, q: u8, v: u8)
    requires { n < length entries.old }
    ensures { JoinedBy n q v entries.old entries.new }
{
    entries[n] = (q as u16) * 256 + (v as u16);
}

// The b oldest bytes of queue q go from the first n to the store, from `place` on. Until the block is whole, an entry
// is written to the store and to the cache, whatever its queue: one that does not belong there is overwritten by the
// next, and there is no branch that goes by the queues. The loop ends by the bytes gone, so it has its places by hand.
pub fn write_out(entries: &mut [u16], n: usize, q: u16, b: usize, store: &mut [u8], place: usize)
    requires { (n ≤ length entries.old) × (place + b ≤ length store.old)
        × (b ≤ count_of q (bytes_in n entries.old)) }
    ensures { WroteOut n q b place entries.old entries.new
        store.old store.new }
{
    let mut gone: usize = 0;
    let mut i: usize = 0;
    while gone < b {
        let e = entries[i];
        store[place + gone] = (e % 256) as u8;
        entries[i - gone] = e;
        gone += (e / 256 == q) as usize;
        i += 1;
    }
    entries.copy_within(i..n, i - gone);
}

// b bytes of the store, from `place` on, join the first n as bytes of queue q.
pub fn read_in(entries: &mut [u16], n: usize, q: u8, b: usize, store: &[u8], place: usize)
    requires { (n + b ≤ length entries.old) × (place + b ≤ length store.now) }
    ensures { ReadIn n q b place entries.old entries.new store.now }
{
    for (i, &byte) in store[place..place + b].iter().enumerate() {
        entries[n + i] = (q as u16) * 256 + (byte as u16);
    }
}

// Of each queue its bytes among the first n.
pub fn tally(entries: &[u16], n: usize) -> CountArray
    requires { (n ≤ head_places) × (n ≤ length entries.now)
        × (all_of (byte_below queue_places) (bytes_in n entries.now) ≡ true) }
    ensures { Tally result (bytes_in n entries.now) }
{
    let mut counts = [0u16; QUEUE_PLACES];
    for entry in &entries[..n] {
        let q = (entry / 256) as usize;
        counts[q] += 1;
    }
    counts
}

// Whether the first n are all of queues below `queues`.
pub fn all_below(entries: &[u16], n: usize, queues: usize) -> bool
    requires { n ≤ length entries.now }
    ensures { result ≡ all_of (byte_below queues) (bytes_in n entries.now) }
{
    entries[..n]
        .iter()
        .all(|entry| ((entry / 256) as usize) < queues)
}

// Among the first n queues with b bytes or more the one with most, the lowest number on a tie.
pub fn fullest_of(counts: &CountArray, n: usize, b: u16) -> Option<u8>
    requires { (n ≤ queue_places) × (length counts.now ≡ queue_places) × (1 ≤ b) }
    ensures { chosen_in result ≡ fullest b (counts_in counts.now) n }
{
    let mut found = None;
    let mut most: u16 = b - 1;
    for (i, &bytes) in counts[..n].iter().enumerate() {
        if bytes > most {
            most = bytes;
            found = Some(i as u8);
        }
    }
    found
}
