// The lines that the program prints, put into a lent output. Each function puts bytes from a place on, leaves every
// other byte as it was, and returns the place behind them: `write!` to a lent slice promises no bytes, and there is no heap
// to print to. A refusal is a number here, since a line tells those of slots, of sizes and of scripts alike.
#![tactic(auto)]

ghost use Rattle.std.specs.Prelude.{[], ◌∷◌, ◌+◌, ◌≤◌, ◌<◌, length};
ghost use Rattle.script_lines.specs.Lines.{delivery, refusal, refill, ending, fault, spaced, line_text};
ghost use Rattle.script_lines.specs.Says.{PutSays};

fn put_byte(output: &mut [u8], place: usize, byte: u8) -> usize
    requires { place < length output.old }
    ensures { PutSays (byte ∷ []) place output.old result output.new }
{
    output[place] = byte;
    place + 1
}

fn put_bytes(output: &mut [u8], place: usize, bytes: &[u8]) -> usize
    requires { place + length bytes.now ≤ length output.old }
    ensures { PutSays bytes.now place output.old result output.new }
{
    let behind = place + bytes.len();
    output[place..behind].copy_from_slice(bytes);
    behind
}

// A number in decimal, after a space.
fn put_number(output: &mut [u8], place: usize, n: u64) -> usize
    requires { place + length (spaced n) ≤ length output.old }
    ensures { PutSays (spaced n) place output.old result output.new }
{
    let mut digits = [0u8; 20];
    let k = io::decimal(n, &mut digits);
    let behind_space = put_byte(output, place, b' ');
    put_bytes(output, behind_space, &digits[..k])
}

// D: a slot delivered a byte of a queue.
pub fn put_delivery(output: &mut [u8], place: usize, slot: u64, queue: u8, value: u8) -> usize
    requires { place + length (line_text (delivery slot queue value)) ≤ length output.old }
    ensures { PutSays (line_text (delivery slot queue value)) place
        output.old result output.new }
{
    let behind_letter = put_byte(output, place, b'D');
    let behind_slot = put_number(output, behind_letter, slot);
    let behind_queue = put_number(output, behind_slot, queue as u64);
    let behind_value = put_number(output, behind_queue, value as u64);
    put_byte(output, behind_value, b'\n')
}

// R: the slot that was about to run was stopped, or a half of the slot was dropped.
pub fn put_refusal(output: &mut [u8], place: usize, slot: u64, number: u8) -> usize
    requires { place + length (line_text (refusal slot number)) ≤ length output.old }
    ensures { PutSays (line_text (refusal slot number)) place output.old result output.new }
{
    let behind_letter = put_byte(output, place, b'R');
    let behind_slot = put_number(output, behind_letter, slot);
    let behind_number = put_number(output, behind_slot, number as u64);
    put_byte(output, behind_number, b'\n')
}

// M: a slot read a block of a queue, for a cell that leaves in so many slots.
pub fn put_refill(output: &mut [u8], place: usize, slot: u64, queue: u8, slots_left: u16) -> usize
    requires { place + length (line_text (refill slot queue slots_left)) ≤ length output.old }
    ensures { PutSays (line_text (refill slot queue slots_left)) place
        output.old result output.new }
{
    let behind_letter = put_byte(output, place, b'M');
    let behind_slot = put_number(output, behind_letter, slot);
    let behind_read = put_number(output, behind_slot, queue as u64);
    let behind_left = put_number(output, behind_read, slots_left as u64);
    put_byte(output, behind_left, b'\n')
}

// E: how many slots were accepted.
pub fn put_ending(output: &mut [u8], place: usize, slots: u64) -> usize
    requires { place + length (line_text (ending slots)) ≤ length output.old }
    ensures { PutSays (line_text (ending slots)) place output.old result output.new }
{
    let behind_letter = put_byte(output, place, b'E');
    let behind_slots = put_number(output, behind_letter, slots);
    put_byte(output, behind_slots, b'\n')
}

// S: the script was refused at an offset.
pub fn put_fault(output: &mut [u8], place: usize, number: u8, offset: usize) -> usize
    requires { place + length (line_text (fault number offset)) ≤ length output.old }
    ensures { PutSays (line_text (fault number offset)) place output.old result output.new }
{
    let behind_letter = put_byte(output, place, b'S');
    let behind_number = put_number(output, behind_letter, number as u64);
    let behind_offset = put_number(output, behind_number, offset as u64);
    put_byte(output, behind_offset, b'\n')
}
