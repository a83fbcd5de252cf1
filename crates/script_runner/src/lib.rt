// A script run on a buffer: judged whole, then its slots in place and its lines into a lent output. The arrays are lent
// one by one: crates/layout says why.
#![tactic(auto)]

ghost use Rattle.std.specs.Prelude.{◌≡◌, true, [], ◌∷◌, ◌≤◌, length};
ghost use Rattle.model.specs.Sizes.{paper, store_bytes};
ghost use Rattle.model.specs.State.{keeps};
ghost use Rattle.model.specs.Lists.{run, last_store};
ghost use Rattle.layout.specs.Calls.{number_of};
ghost use Rattle.layout.specs.Lent.{given, found, left, counts_given, counts_left};
ghost use Rattle.layout.specs.Views.{sizes_in, state_in};
ghost use Rattle.slot_in_place.specs.Says.{Ready};
ghost use Rattle.buffer.specs.Says.{state_of};
ghost use Rattle.script_commands.specs.Scripts.{judge};
ghost use Rattle.script_lines.specs.Lines.{text, refusal, ending};
ghost use Rattle.script_lines.specs.Says.{PutSays};
ghost use Rattle.script_text.specs.Run.{list_lines, judged_lines, judged_store, script_lines, script_store, output_bound};
ghost use Rattle.script_slots.specs.Says.{RunsOn, Room};
ghost use Rattle.script_runner.specs.Says.{script_from, calls_from, SizesSays, ListFits, PrintsSays};
ghost use Rattle.script_runner.specs.Says.{GoodFits, ScriptSays};

use buffer::State;
use layout::{CellArray, CountArray, HeadArray, Refusal, RingArray, TailArray};
use script_commands::Command;
use script_slots::Progress;

// The commands from a place of a script on that was judged good, to its end.
fn run_commands(
    tail: &mut TailArray,
    head: &mut HeadArray,
    cells: &mut CellArray,
    firsts: &mut RingArray,
    stored: &mut RingArray,
    tails: &mut CountArray,
    heads: &mut CountArray,
    owing: &mut CountArray,
    start: Progress,
    script: &[u8],
    from: usize,
    store: &mut [u8],
    output: &mut [u8],
) -> Progress
    requires { Ready start.regs (given tail head cells firsts stored)
        (counts_given tails heads owing) store.old
        × Room (state_in start.regs (given tail head cells firsts stored))
        store.old (calls_from script.now from) start.slots start.place output.old
        × ((script_from script.now from).number ≡ 0) }
    ensures { RunsOn
        (state_in start.regs (found tail head cells firsts stored))
        store.old (calls_from script.now from) start.slots start.place
        output.old result
        (left tail head cells firsts stored)
        (counts_left tails heads owing) store.new output.new }
{
    let mut reached = start;
    let mut at = from;
    // Commands differ in length, so that no iterator of the library goes over them.
    while at < script.len() {
        match scripts::read(&script[at..], false) {
            Ok((command, length)) => {
                reached = script_slots::run_command(
                    tail, head, cells, firsts, stored, tails, heads, owing, reached, command,
                    store, output,
                );
                at += length;
            }
            Err(_) => return reached,
        }
    }
    reached
}

// The sizes that a script begins with, and how many bytes that command has.
#[derive(Clone, Copy)]
struct FirstSizes {
    queues: usize,
    block: usize,
    depth: usize,
    length: usize,
}

// The first command of a script that was judged good.
fn first_sizes(script: &[u8]) -> FirstSizes
    requires { (judge script.now).number ≡ 0 }
    ensures { SizesSays script.now result }
{
    let Ok((command, length)) = scripts::read(script, true) else {
        unreachable!();
    };
    let Command::Sizes(queues, block, depth) = command else {
        unreachable!();
    };
    FirstSizes {
        queues: queues as usize,
        block: block as usize,
        depth: depth as usize,
        length,
    }
}

// All slots of a script behind its sizes, from a state on, and the last line. The state lends its arrays, and the slots run
// in place.
fn run_all(
    mut state: State,
    script: &[u8],
    from: usize,
    store: &mut [u8],
    output: &mut [u8],
) -> usize
    requires { (keeps paper (state_of state) ≡ true) × (store_bytes (sizes_in state.regs) ≤ length store.old)
        × ((script_from script.now from).number ≡ 0)
        × ListFits (state_of state) store.old (calls_from script.now from) output.old }
    ensures { PrintsSays (list_lines (run paper (state_of state) store.old
        (calls_from script.now from)))
        (last_store paper (state_of state) store.old (calls_from script.now from))
        output.old result store.new output.new }
{
    let mut counts = slot_counts::take(&state.tail, &state.head, &state.cells, state.regs);
    let start = Progress {
        regs: state.regs,
        slots: 0,
        place: 0,
    };
    let last = run_commands(
        &mut state.tail,
        &mut state.head,
        &mut state.cells,
        &mut state.firsts,
        &mut state.stored,
        &mut counts.tails,
        &mut counts.heads,
        &mut counts.owing,
        start,
        script,
        from,
        store,
        output,
    );
    script_lines::put_ending(output, last.place, last.slots)
}

// A script whose sizes, or the store, are refused: the refusal, and that no slot was accepted.
fn refuse_start(output: &mut [u8], reason: Refusal) -> usize
    requires { length (text (refusal 0 (number_of reason) ∷ ending 0 ∷ [])) ≤ length output.old }
    ensures { PutSays (text (refusal 0 (number_of reason) ∷ ending 0 ∷ [])) 0 output.old result
        output.new }
{
    let behind = script_lines::put_refusal(output, 0, 0, u8::from(reason));
    script_lines::put_ending(output, behind, 0)
}

// A script that was judged good: 1 is judged, then 2, and then its slots run.
fn run_good(script: &[u8], store: &mut [u8], output: &mut [u8]) -> usize
    requires { GoodFits script.now store.old output.old }
    ensures { PrintsSays (judged_lines (judge script.now) store.old)
        (judged_store (judge script.now) store.old)
        output.old result store.new output.new }
{
    let FirstSizes {
        queues,
        block,
        depth,
        length,
    } = first_sizes(script);
    match State::make(queues, block, depth) {
        Ok(state) => {
            if store.len() < queues * depth * block {
                return refuse_start(output, Refusal::ShortStore);
            }
            run_all(state, script, length, store, output)
        }
        Err(reason) => refuse_start(output, reason),
    }
}

// "reads a script of at most 65,536 bytes"
const MOST_BYTES: usize = 65536;

// Any bytes as a script, with room for what it may print: judged whole before any slot runs.
fn print_script(script: &[u8], store: &mut [u8], output: &mut [u8]) -> usize
    requires { output_bound (length script.now) ≤ length output.old }
    ensures { PrintsSays (script_lines script.now store.old)
        (script_store script.now store.old)
        output.old result store.new output.new }
{
    if MOST_BYTES < script.len() {
        return script_lines::put_fault(output, 0, 15, MOST_BYTES);
    }
    match scripts::judge(script) {
        Ok(()) => run_good(script, store, output),
        Err(fault) => { script_lines::put_fault(output, 0, fault.refusal.into(), fault.offset) }
    }
}

// How much output `run_script` asks for a script of so many bytes: 11 bytes for each, up to 65,536 of them, and 11
// more. It goes by the length alone, whatever the script holds, and no script prints more (`text-fits`).
pub fn output_asked(script_bytes: usize) -> usize
    ensures { result ≡ output_bound script_bytes }
{
    11 * script_bytes.min(MOST_BYTES) + 11
}

// The output is shorter than `output_asked`.
#[derive(Clone, Copy, PartialEq, Eq, Debug)]
pub struct OutputTooShort;

// Any bytes as a script, on any store, with any output: how many bytes it printed. Nothing is touched where the output
// is shorter than `output_asked` of the script's length, also where what the script prints would have fitted: that is
// not known before its slots have run and the store has changed.
pub fn run_script(
    script: &[u8],
    store: &mut [u8],
    output: &mut [u8],
) -> Result<usize, OutputTooShort>
    ensures { ScriptSays script.now store.old output.old result
        store.new output.new }
{
    if output.len() < output_asked(script.len()) {
        return Err(OutputTooShort);
    }
    Ok(print_script(script, store, output))
}
