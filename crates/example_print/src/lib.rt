// What a slot did, in words: for the two programs that the README shows. A line that cannot be written is not told.
#![tactic(auto)]

use layout::Byte;
use std::io::Print;

// A slot, what it does, and the number that it does it with.
fn line(to: &impl Print, slot: u64, does: &str, n: u8) {
    let _ = println!(to; "slot {slot} {does} {n}");
}

// A line for each thing that moved: the byte delivered, the block written, the block read.
pub fn moves(
    to: &impl Print,
    slot: u64,
    delivery: Option<Byte>,
    written: Option<u8>,
    read: Option<u8>,
) {
    if let Some(Byte { queue, value }) = delivery {
        let _ = println!(to; "slot {slot} delivers byte {value} of queue {queue}");
    }
    if let Some(queue) = written {
        line(to, slot, "writes a block of queue", queue);
    }
    if let Some(queue) = read {
        line(to, slot, "reads a block of queue", queue);
    }
}

// With what a slot, or the sizes, are refused: a refusal, or any number.
pub fn refusal(to: &impl Print, slot: u64, with: impl Into<u8>) {
    line(to, slot, "is refused with", with.into());
}
