// Writing the script of records that are good, into an output that has room.
ghost use Rattle.std.specs.Prelude.{◌≡◌, ◌+◌, ◌*◌, ◌≤◌, leb, length};
ghost use Rattle.script_commands.specs.Scripts.{script_bytes};
ghost use Rattle.script_codes.specs.Says.{put_over};
ghost use Rattle.capture_frames.specs.Script.{arrivals};
ghost use Rattle.captures.specs.Says.{FramesFit, FramesWritten, record_script};

use crate::reading::{RECORD_HEAD, captured_in, queue_of};
use script_commands::Command;

// Whether a script of so many captured bytes, which has 5 + 3 × as many, has room: no product can be too large.
pub fn fits(bytes: usize, room: usize) -> bool
    ensures { result ≡ leb (5 + 3 * bytes) room }
{
    room >= 5 && bytes <= (room - 5) / 3
}

// The arrivals of a frame's bytes at a queue: there is room, so that none is refused.
fn write_frame(queue: u8, frame: &[u8], output: &mut [u8])
    requires { 3 * length frame.now ≤ length output.old }
    ensures { output.new ≡ put_over (script_bytes (arrivals queue frame.now))
        output.old }
{
    for (i, &byte) in frame.iter().enumerate() {
        let _ = scripts::write(Command::Arrive(queue, byte), &mut output[3 * i..]);
    }
}

// The arrivals of all frames, each at its own queue: how many bytes they have.
fn write_frames(records: &[u8], output: &mut [u8]) -> usize
    requires { FramesFit 0 records.now output.old }
    ensures { FramesWritten records.now output.old result output.new }
{
    // As in `measure`: no iterator goes over the records.
    let mut rest = records;
    let mut to = 0;
    while !rest.is_empty() {
        let captured = captured_in(rest);
        let (frame, behind) = rest[RECORD_HEAD..].split_at(captured);
        write_frame(queue_of(frame), frame, &mut output[to..]);
        to += 3 * captured;
        rest = behind;
    }
    to
}

// The whole script, for which there is room: the sizes, the arrivals, the end.
pub fn write_script(queues: u8, block: u8, depth: u8, records: &[u8], output: &mut [u8])
    requires { FramesFit 5 records.now output.old }
    ensures { output.new ≡ put_over (record_script queues block depth records.now)
        output.old }
{
    let _ = scripts::write(Command::Sizes(queues, block, depth), output);
    let written = write_frames(records, &mut output[4..]);
    let _ = scripts::write(Command::End, &mut output[4 + written..]);
}
