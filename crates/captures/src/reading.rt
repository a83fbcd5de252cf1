// Reading a capture: its header, its records, the priority of a frame. Nothing is written.
ghost use Rattle.std.specs.Prelude.{◌≡◌, ◌+◌, ◌*◌, ◌≤◌, length};
ghost use Rattle.capture_frames.specs.Frames.{header_good, captured_in, record_good, priority_of, frames_from};
ghost use Rattle.capture_frames.specs.Script.{queue_of};
ghost use Rattle.captures.specs.Says.{measured_of};

// The bytes of a capture's header.
pub const HEADER: usize = 24;

// The bytes of a record before its frame.
pub const RECORD_HEAD: usize = 16;

// The most captured bytes that a record may have.
const MOST_CAPTURED: usize = 9016;

// Whether a capture begins with a header of the little-endian form, version 2.4, link type 1.
pub fn header_good(capture: &[u8]) -> bool
    ensures { result ≡ header_good capture.now }
{
    capture.len() >= HEADER
        && capture.starts_with(b"\xd4\xc3\xb2\xa1\x02\x00\x04\x00")
        && capture[20..].starts_with(b"\x01\x00\x00\x00")
}

// The number of captured bytes that a record's head tells.
pub fn captured_in(rest: &[u8]) -> usize
    requires { 16 ≤ length rest.now }
    ensures { result ≡ captured_in rest.now }
{
    u32::from_le_bytes([rest[8], rest[9], rest[10], rest[11]]) as usize
}

// Whether what is left of a capture begins with a whole record of at most 9,016 captured bytes.
pub fn record_good(rest: &[u8]) -> bool
    ensures { result ≡ record_good rest.now }
{
    if rest.len() < RECORD_HEAD {
        return false;
    }
    let captured = captured_in(rest);
    captured <= MOST_CAPTURED && RECORD_HEAD + captured <= rest.len()
}

// How many bytes all frames together have, or none where a record is at fault. Goes over all records before anything is
// written, so that a faulty one leaves the output as it came.
pub fn measure(records: &[u8]) -> Option<usize>
    ensures { result ≡ measured_of (frames_from records.now) }
{
    // Records differ in length, so that no iterator of the library goes over them.
    let mut rest = records;
    let mut bytes = 0;
    while !rest.is_empty() {
        if !record_good(rest) {
            return None;
        }
        let captured = captured_in(rest);
        bytes += captured;
        rest = &rest[RECORD_HEAD + captured..];
    }
    Some(bytes)
}

// The priority that a frame's tag tells, 0 where it has none.
pub fn priority_of(frame: &[u8]) -> u8
    ensures { result ≡ priority_of frame.now }
{
    if frame.len() >= 15 && frame[12] == 0x81 && frame[13] == 0x00 {
        frame[14] / 32
    } else {
        0
    }
}

// The queue of a frame, which is its priority.
pub fn queue_of(frame: &[u8]) -> u8
    ensures { result ≡ queue_of frame.now }
{
    priority_of(frame)
}
