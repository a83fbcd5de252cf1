// The program: a capture file and Q, b and K as arguments; the capture's script to standard output, and the answer's
// number to standard error. It decides nothing: `captures::to_script` has the answer.
#![tactic(auto)]

ghost use Rattle.std.specs.Prelude.{◌≡◌, ◌+◌, ◌-◌, ◌*◌, ◌≤◌, min, length, IfOk};
ghost use Rattle.capture.specs.Decimal.{decimal_in, most_told, at_most};
ghost use Rattle.capture.specs.Says.{IsCaptureScript};

use std::env::FillError;
use std::io::{Eprint, Error, Print};
use std::rt::{Env, Files};
use std::{fs, io};

// One byte more than a capture may have here, to tell a longer one. The library takes captures of any length.
const INPUT: usize = 1048577;

// Three bytes for each of a capture's always have room for its script (`room_enough`).
const OUTPUT: usize = 3145728;

// Room for both, as functions of their own: a proof that meets the array itself would count its bytes one by one.
fn input_room() -> [u8; INPUT]
    ensures { 1048577 ≡ length result }
{
    [0; INPUT]
}

fn output_room() -> [u8; OUTPUT]
    ensures { 3145728 ≡ length result }
{
    [0; OUTPUT]
}

// A digit more behind those that make n.
fn with_digit(n: usize, digit: u8) -> usize
    requires n_le_most_told { n ≤ most_told }
    requires le_digit { 48 ≤ digit }
    ensures { result ≡ min (10 * n + (digit - 48)) most_told }
{
    (10 * n + (digit - b'0') as usize).min(100000)
}

// The number that digits alone make, 100,000 where it is greater.
fn decimal(text: &[u8]) -> Option<usize>
    ensures { result ≡ at_most (decimal_in text.now) }
{
    if text.is_empty() {
        return None;
    }
    let mut n = 0;
    for &letter in text {
        if !letter.is_ascii_digit() {
            return None;
        }
        n = with_digit(n, letter);
    }
    Some(n)
}

// The number that an argument is, of at most 20 letters.
fn argument(rt: &impl Env, place: usize) -> Option<usize> {
    let mut text = [0u8; 20];
    let length = rt.arg(place, &mut text).ok()?;
    decimal(&text[..length])
}

// Whether there is such an argument.
fn has_argument(rt: &impl Env, place: usize) -> bool {
    !matches!(rt.arg(place, &mut []), Err(FillError::NotPresent))
}

// A line on standard error. One that cannot be written is not told.
fn say(rt: &impl Eprint, line: &str) {
    let _ = eprintln!(rt; "{line}");
}

// What the system says of a file, or of standard output, where it fails.
fn fail(rt: &impl Eprint, name: &str, error: &Error) {
    program_input::fail(rt, "capture", name, error);
}

// The answer's number, 0 where a script was written.
fn tell(rt: &impl Eprint, number: u8) {
    let _ = eprintln!(rt; "{number}");
}

// Writes a script. No contract can say what the system writes: so it is said, and proved where it is called, of what is
// handed over to be written, which is all that this function has.
fn write_script(to: &impl Print, script: &[u8]) -> io::Result<()>
    requires { IsCaptureScript script.now }
{
    to.write_all(script)
}

// Converts a capture and writes its script.
fn convert(rt: &(impl Print + Eprint), queues: usize, block: usize, depth: usize, capture: &[u8]) {
    let mut output = output_room();
    match captures::to_script(queues, block, depth, capture, &mut output) {
        Ok(length) => match write_script(rt, &output[..length]) {
            Ok(()) => tell(rt, 0),
            Err(error) => fail(rt, "standard output", &error),
        },
        Err(refusal) => tell(rt, u8::from(refusal)),
    }
}

// Reads a file, as much of it as there is room for: how many bytes.
fn read_file(rt: &impl Files, path: &str, input: &mut [u8]) -> io::Result<usize>
    ensures { IfOk result (λ n. n ≤ length input.new) }
{
    let mut file = fs::open(rt, path)?;
    program_input::read_all(&mut file, input).map_err(|failure| failure.error)
}

// Opens a capture file, reads and converts it.
fn convert_file(
    rt: &(impl Files + Print + Eprint),
    path: &str,
    queues: usize,
    block: usize,
    depth: usize,
) {
    let mut input = input_room();
    let length = match read_file(rt, path, &mut input) {
        Ok(length) => length,
        Err(error) => {
            fail(rt, path, &error);
            return;
        }
    };
    if length == INPUT {
        let _ = eprintln!(rt; "capture: {path}: longer than 1,048,576 bytes");
        return;
    }
    convert(rt, queues, block, depth, &input[..length]);
}

fn main(rt: HostRuntime) {
    if !has_argument(&rt, 4) || has_argument(&rt, 5) {
        say(&rt, "usage: capture FILE Q b K");
        return;
    }
    let Some(queues) = argument(&rt, 2) else {
        say(&rt, "capture: Q is no number of at most 20 digits");
        return;
    };
    let Some(block) = argument(&rt, 3) else {
        say(&rt, "capture: b is no number of at most 20 digits");
        return;
    };
    let Some(depth) = argument(&rt, 4) else {
        say(&rt, "capture: K is no number of at most 20 digits");
        return;
    };
    let mut path = [0u8; 4096];
    let Ok(length) = rt.arg(1, &mut path) else {
        say(&rt, "capture: FILE: File name too long");
        return;
    };
    let Ok(path) = str::from_utf8(&path[..length]) else {
        say(&rt, "capture: FILE: its name is not UTF-8");
        return;
    };
    convert_file(&rt, path, queues, block, depth);
}
