// The packet buffer: its state by value, the making of one, and the slot.
#![tactic(auto)]

ghost use Rattle.std.specs.Prelude.{◌≡◌, true, ◌≤◌, length};
ghost use Rattle.model.specs.Sizes.{paper, store_bytes};
ghost use Rattle.model.specs.State.{keeps};
ghost use Rattle.layout.specs.Calls.{call_in};
ghost use Rattle.layout.specs.Views.{sizes_in};
ghost use Rattle.buffer.specs.Says.{state_of, fresh_state, MakeSays, JudgeSays, SlotSays, StepSays};

use layout::{
    CELL_PLACES, Call, CellArray, EMPTY, HEAD_PLACES, HeadArray, Outcome, QUEUE_PLACES, Refusal,
    Regs, Reply, RingArray, TAIL_PLACES, TailArray,
};

mod margin;
pub mod steps;

// "The state is one record that carries its caches and lookahead inside it": a byte of a cache is queue × 256 +
// value, a cell is kind × 65,536 + queue × 256 + value, and for each queue there is its first ring block and its
// block count.
#[derive(Clone, Copy)]
pub struct State {
    pub regs: Regs,
    pub tail: TailArray,
    pub head: HeadArray,
    pub cells: CellArray,
    pub firsts: RingArray,
    pub stored: RingArray,
}

/// What is judged of a slot that is not refused: which halves of its call it drops, and what is left of them.
#[derive(Clone, Copy, PartialEq, Eq, Debug)]
pub struct Judged {
    pub arrival_dropped: bool,
    pub request_dropped: bool,
    pub call: Call,
}

/// A slot's answer: the state, and what the slot tells.
#[derive(Clone, Copy)]
pub struct Slotted {
    pub state: State,
    pub reply: Reply,
}

impl State {
    // All cells empty from the start, empty caches and rings, first block 0, phase 0, marks 0. The last one asked is
    // the last queue, or 0 where there is none.
    fn fresh(queues: usize, block: usize, depth: usize) -> State
        ensures { result ≡ fresh_state queues block depth }
    {
        State {
            regs: Regs {
                queues,
                block,
                depth,
                phase: 0,
                tail_fill: 0,
                head_fill: 0,
                tail_mark: 0,
                head_mark: 0,
                last_asked: queues.saturating_sub(1),
            },
            tail: [0; TAIL_PLACES],
            head: [0; HEAD_PLACES],
            cells: [EMPTY; CELL_PLACES],
            firsts: [0; QUEUE_PLACES],
            stored: [0; QUEUE_PLACES],
        }
    }

    /// A fresh state of these sizes, which are refused where they are not within the limits.
    pub fn make(queues: usize, block: usize, depth: usize) -> Result<State, Refusal>
        ensures { MakeSays queues block depth result }
    {
        if !sizing::accepted(queues, block, depth) {
            return Err(Refusal::Sizes);
        }
        Ok(State::fresh(queues, block, depth))
    }

    // What a slot will take of its call, or why it will not happen, of any state and with any store of so many bytes.
    // Nothing changes.
    pub fn judge(self, call: Call, bytes: usize) -> Result<Judged, Refusal>
        ensures { JudgeSays (state_of self) bytes (call_in call) result }
    {
        let plan = slot_checked::plan(
            &self.tail,
            &self.head,
            &self.cells,
            &self.firsts,
            &self.stored,
            self.regs,
            call,
            bytes,
        )?;
        Ok(Judged {
            arrival_dropped: plan.arrival_dropped,
            request_dropped: plan.request_dropped,
            call: plan.call,
        })
    }

    // One slot, of any state and any store: judged as a whole, and then carried out with what is left of its call, on the
    // state's own arrays. On a refusal the very record comes back. It is one method, since every call of a method with a
    // state in it costs a copy of 20 KB.
    pub fn slot(mut self, call: Call, store: &mut [u8]) -> Slotted
        ensures { SlotSays self store.old (call_in call) result store.new }
    {
        let plan = match slot_checked::plan(
            &self.tail,
            &self.head,
            &self.cells,
            &self.firsts,
            &self.stored,
            self.regs,
            call,
            store.len(),
        ) {
            Ok(plan) => plan,
            Err(refusal) => {
                return Slotted {
                    state: self,
                    reply: Err(refusal),
                };
            }
        };
        let carried = slot_in_place::carry(
            &mut self.tail,
            &mut self.head,
            &mut self.cells,
            &mut self.firsts,
            &mut self.stored,
            self.regs,
            plan,
            store,
        );
        self.regs = carried.regs;
        Slotted {
            state: self,
            reply: Ok(Outcome {
                arrival_dropped: plan.arrival_dropped,
                request_dropped: plan.request_dropped,
                delivery: carried.delivery,
                written: plan.written,
                read: plan.refill,
            }),
        }
    }

    // One slot of a state that keeps the rules, with a store that is long enough: what it leaves can be stepped again. A
    // caller knows both from `judge`, which answered neither 3 nor 2, or from the slot or step before. Rule 3 is judged
    // all the same: that is a tenth of a slot by value, and its copies are the rest.
    pub fn step(self, call: Call, store: &mut [u8]) -> Slotted
        requires { (keeps paper (state_of self) ≡ true) × (store_bytes (sizes_in self.regs) ≤ length store.old) }
        ensures { StepSays self store.old (call_in call) result store.new }
    {
        self.slot(call, store)
    }
}
