// Captures: one converted to a script.
#![tactic(auto)]

ghost use Rattle.c_captures.specs.Says.{CaptureConverted};

use c_scripts::NumbersPut;

// A capture as a script at the front of the output: 0 and how many bytes it has; or the refusal and 0.
pub fn capture_to_script(
    queues: usize,
    block: usize,
    depth: usize,
    capture: &[u8],
    output: &mut [u8],
) -> NumbersPut
    ensures { CaptureConverted queues block depth capture.now output.old result
        output.new }
{
    match captures::to_script(queues, block, depth, capture, output) {
        Ok(length) => NumbersPut { length, number: 0 },
        Err(refusal) => NumbersPut {
            length: 0,
            number: u8::from(refusal),
        },
    }
}
