// A list of slots by value, from a fresh state: what the benchmark measures `State::slot` by. Callers outside have
// crates/gelwynnar, where no state is copied.
#![tactic(auto)]

ghost use Rattle.std.specs.Prelude.{◌≡◌};
ghost use Rattle.by_value.specs.Says.{DrivenIs, DroveSays};

use buffer::{Slotted, State};
use layout::{Outcome, Regs};

// What a list answers: 0 and the high marks of the state that it leaves; or 1 and 0, where the sizes are refused: to C a
// refusal is its number.
#[repr(C)]
#[derive(Clone, Copy)]
pub struct Driven {
    pub number: u8,
    pub tail_mark: usize,
    pub head_mark: usize,
}

// A list that was not run.
fn refused() -> Driven
    ensures { DrivenIs 1 0 0 result }
{
    Driven {
        number: 1,
        tail_mark: 0,
        head_mark: 0,
    }
}

// A list that was run, and left a state with these registers.
fn finished(regs: Regs) -> Driven
    ensures { DrivenIs 0 regs.tail_mark regs.head_mark result }
{
    Driven {
        number: 0,
        tail_mark: regs.tail_mark,
        head_mark: regs.head_mark,
    }
}

// One checked slot by value for each call.
#[unsafe(no_mangle)]
pub extern "C" fn by_value_slots(
    queues: usize,
    block: usize,
    depth: usize,
    calls: &[u64],
    answers: &mut [u64],
    store: &mut [u8],
) -> Driven
    ensures { DroveSays queues block depth calls.now answers.old answers.new
        store.old store.new result }
{
    let Ok(state) = State::make(queues, block, depth) else {
        return refused();
    };
    // The last answer holds the state: to take it out of each one would be one more copy of 20 KB a slot.
    let mut last = Slotted {
        state,
        reply: Ok(Outcome::default()),
    };
    let n = calls.len().min(answers.len());
    for (i, &call) in calls[..n].iter().enumerate() {
        last = last.state.slot(run_words::call_in(call), store);
        answers[i] = run_words::reply_word(last.reply);
    }
    finished(last.state.regs)
}
