// The program: a script from standard input, run on a store of 65,536 bytes, and what it prints to standard output. It
// decides nothing: `script_runner::run_script` has the text.
#![tactic(auto)]

ghost use Rattle.std.specs.Prelude.{◌≡◌, ◌≤◌, ◌<◌, length, take, IfOk, IfErr};
ghost use Rattle.io.specs.Counts.{IsPrefixLen};
ghost use Rattle.script_text.specs.Run.{most_bytes, program_text, output_bound};
ghost use Rattle.slots.specs.Says.{most_output, IsProgramText, AnswerSays};

use program_input::Failure;
use std::io;
use std::io::{Print, Read};

// One byte more than a script may have. A longer input need not be read on: a full buffer is over the length of a
// script, so that what follows it changes nothing (`program_reads_enough`, `longer_input_prints_alike`).
const INPUT: usize = 65537;

// "lends a store of 65,536" (`store_lent`)
const STORE: usize = 65536;

// What a script of any length can print (`output_enough`).
const OUTPUT: usize = 720907;

// Room for it, as a function of its own: a proof that meets the array itself would count its bytes one by one.
fn output_room() -> [u8; OUTPUT]
    ensures { 720907 ≡ length result }
{
    [0; OUTPUT]
}

// What the program prints for an input, at the start of the output, on a store of its own: how many bytes.
fn print_script(script: &[u8], output: &mut [u8]) -> usize
    requires { output_bound (length script.now) ≤ length output.old }
    ensures output_after { take result output.new ≡ program_text script.now }
    ensures prefix_len { IsPrefixLen result output.new }
{
    let mut store = [0u8; STORE];
    script_runner::run_script(script, &mut store, output).unwrap()
}

// What came of the input: how many bytes it has, and how many its text has.
#[derive(Clone, Copy)]
struct Answer {
    read: usize,
    printed: usize,
}

// Reads the input and puts its text at the start of the output. Where a read failed, nothing is run: what was read is
// no whole input, and nothing is printed.
fn answer_input<R: Read>(
    from: &mut R,
    input: &mut [u8],
    output: &mut [u8],
) -> Result<Answer, Failure>
    requires most_bytes_in_bounds { most_bytes < length input.old }
    requires most_output_in_bounds { most_output ≤ length output.old }
    ensures says { IfOk result (λ answer. AnswerSays input.new answer output.new) }
    ensures failed { IfErr result (λ failure. IsPrefixLen failure.length input.new) }
{
    let read = program_input::read_all(from, input)?;
    let printed = print_script(&input[..read], output);
    Ok(Answer { read, printed })
}

// Writes a text of the program's. No contract can say what the system writes: so it is said, and proved in `main`, of
// what is handed over to be written, which is all that this function has.
fn write_text(to: &impl Print, text: &[u8]) -> io::Result<()>
    requires { IsProgramText text.now }
{
    to.write_all(text)
}

fn main(rt: HostRuntime) {
    let mut input = [0u8; INPUT];
    let mut output = output_room();
    let mut from = rt.stdin();
    let answer = match answer_input(&mut from, &mut input, &mut output) {
        Ok(answer) => answer,
        Err(failure) => {
            program_input::fail(&rt, "slots", "standard input", &failure.error);
            return;
        }
    };
    if let Err(error) = write_text(&rt, &output[..answer.printed]) {
        program_input::fail(&rt, "slots", "standard output", &error);
    }
}
