// What the programs read their input with, and how they tell what failed.
#![tactic(auto)]

ghost use Rattle.std.specs.Prelude.{IfOk, IfErr};
ghost use Rattle.io.specs.Counts.{IsPrefixLen};

use std::io::{Eprint, Error, Read, Write};

// What a read failed with, and how many bytes were read before it.
#[derive(Drop)]
pub struct Failure {
    pub length: usize,
    pub error: Error,
}

// Reads until the buffer is full or the input ends: how many bytes were read.
pub fn read_all<R: Read>(reader: &mut R, buffer: &mut [u8]) -> Result<usize, Failure>
    ensures within { IfOk result (λ length. IsPrefixLen length buffer.new) }
    ensures failed { IfErr result (λ failure. IsPrefixLen failure.length buffer.new) }
{
    // A read takes as many bytes as it likes, so that no iterator steps so.
    let mut done: usize = 0;
    while done < buffer.len() {
        match reader.read(&mut buffer[done..]) {
            Ok(0) => break,
            Ok(more) => done += more,
            Err(error) => {
                return Err(Failure {
                    length: done,
                    error,
                });
            }
        }
    }
    Ok(done)
}

// Writes a line to standard error: the program's name, what failed, and the system's words for it without their number.
// A line that cannot be written is not told.
pub fn fail(to: &impl Eprint, program: &str, what: &str, error: &Error) {
    let mut text = [0u8; 256];
    let mut rest = &mut text[..];
    let _ = write!(rest, "{error}");
    let length = 256usize.saturating_sub(rest.len());
    let words = words(&text[..length]);
    let _ = eprintln!(to; "{program}: {what}: {words}");
}

// What an error's text says before " (os error N)"; all of it where that is not there.
fn words(text: &[u8]) -> &str {
    let Ok(text) = str::from_utf8(text) else {
        return "";
    };
    match text.split_once(" (os error ") {
        Some((before, _)) => before,
        None => text,
    }
}
