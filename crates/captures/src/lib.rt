// Scripts from captures (request 2.3): `to_script`, with no `requires`.
#![tactic(auto)]

ghost use Rattle.std.specs.Prelude.{◌≡◌};
ghost use Rattle.captures.specs.Says.{number_of, ConvertedSays};

mod reading;
mod writing;

// Why a capture becomes no script, in the order in which the reasons are tested.
#[derive(Clone, Copy, PartialEq, Eq, Debug)]
pub enum Refusal {
    // The sizes are none that a buffer may have.
    SizesNotAccepted = 1,
    // Fewer than the eight queues of the priorities.
    TooFewQueues = 19,
    // The header is short or other than named.
    UnknownHeader = 17,
    // A record is cut short, or has over 9,016 captured bytes.
    FaultyRecord = 18,
    // The script is longer than the output.
    OutputTooShort = 16,
}

// The paper's numbers.
impl From<Refusal> for u8 {
    ghost from_gives = { λ refusal number. number ≡ number_of refusal };

    fn from(refusal: Refusal) -> u8 {
        refusal as u8
    }
}

// A capture as a script of these sizes, at the start of the output, and how many bytes it has; or why not, with the
// output as it came.
pub fn to_script(
    queues: usize,
    block: usize,
    depth: usize,
    capture: &[u8],
    output: &mut [u8],
) -> Result<usize, Refusal>
    ensures { ConvertedSays queues block depth capture.now output.old result
        output.new }
{
    if !sizing::accepted(queues, block, depth) {
        return Err(Refusal::SizesNotAccepted);
    }
    if queues < 8 {
        return Err(Refusal::TooFewQueues);
    }
    if !reading::header_good(capture) {
        return Err(Refusal::UnknownHeader);
    }
    let records = &capture[reading::HEADER..];
    let bytes = reading::measure(records).ok_or(Refusal::FaultyRecord)?;
    if !writing::fits(bytes, output.len()) {
        return Err(Refusal::OutputTooShort);
    }
    writing::write_script(queues as u8, block as u8, depth as u8, records, output);
    Ok(5 + 3 * bytes)
}
