// Captures for C: one converted to a script, as crates/c_captures has it.
ghost use Rattle.c_captures.specs.Says.{CaptureConverted};

use c_scripts::NumbersPut;

// A capture as a script at the front of the output: 0 and how many bytes it has; or the refusal and 0.
#[unsafe(no_mangle)]
pub extern "C" fn gel_capture_to_script(
    queues: usize,
    block: usize,
    depth: usize,
    capture: &[u8],
    output: &mut [u8],
) -> NumbersPut
    ensures { CaptureConverted queues block depth capture.now output.old result
        output.new }
{
    c_captures::capture_to_script(queues, block, depth, capture, output)
}
