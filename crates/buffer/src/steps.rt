// "The state goes into a slot and is handed back by it": the steps of a slot as methods on the state, each by value and
// each of the whole state. A step asks only what its own move needs, and lets pass what the slot stops with 4, 6 and 9
// or drops with 5: an arrival of queue 200 joins the tail of a state that has one queue. So whoever calls them has
// `State::judge` answer first. Where that does not refuse, the steps in turn, with the arrival and the request that it left and
// told by the choices of crates/buffer_choices, find what they ask, and are the slot: `buffer_choices::steps_in_turn`.
ghost use Rattle.std.specs.Prelude.{◌≡◌, ◌<◌};
ghost use Rattle.model.specs.Slot.{delivery, after_arrival, after_request, after_write, store_written, after_read};
ghost use Rattle.model.specs.Slot.{after_phase};
ghost use Rattle.layout.specs.Calls.{chosen_in, arrival_in, request_in, delivery_in};
ghost use Rattle.buffer.specs.Says.{state_of};
ghost use Rattle.buffer.specs.OneStep.{opened, closed, CachesFit, DeliverAsks, AskAsks, WriteAsks, ReadAsks};

use crate::{EMPTY, State};
use layout::Byte;

/// What the first step gives: the state, and the byte that its oldest cell delivered.
#[derive(Clone, Copy)]
pub struct Delivered {
    pub state: State,
    pub delivery: Option<Byte>,
}

impl State {
    // 1. "The oldest cell leaves": what it delivers, and the state with an empty youngest cell. `judge` rules out 8.
    pub fn deliver(mut self) -> Delivered
        requires { DeliverAsks (state_of self) }
        ensures { (state_of result.state ≡ opened (state_of self))
            × (delivery_in result.delivery ≡ delivery (state_of self)) }
    {
        let cell = self.cells[0];
        let gave = slot_steps::deliver(&mut self.head, self.regs.head_fill, cell);
        let l = self.regs.queues * (self.regs.block - 1) + 1;
        lookahead::shift(&mut self.cells, l, EMPTY);
        self.regs.head_fill = gave.fill;
        Delivered {
            state: self,
            delivery: gave.delivery,
        }
    }

    // 2. "The arriving byte joins the tail." The mark rises with the fill. 4, 5 and 9 are for `judge`. A slot calls it
    // before the request with what `slot_plan::early_arrival` gives and after it with `slot_plan::late_arrival`, told
    // by `buffer_choices::swaps` of the state as handed in.
    pub fn arrive(mut self, arrival: Option<Byte>) -> State
        requires { CachesFit (state_of self) }
        ensures { state_of result ≡ after_arrival (arrival_in arrival) (state_of self) }
    {
        let fill = self.regs.tail_fill;
        let joined = slot_steps::arrive(&mut self.tail, fill, arrival);
        self.regs.tail_fill = joined;
        self.regs.tail_mark = self.regs.tail_mark.max(joined);
        self
    }

    // 3. "The request takes the youngest cell": Owed where `owes` says so, as `buffer_choices::owes_request` tells, else
    // Held. 6 is for `judge`, and so is 7: it leaves no request without a byte.
    pub fn ask(mut self, owes: bool, request: Option<u8>) -> State
        requires { AskAsks (state_of self) owes (request_in request) }
        ensures { state_of result ≡ after_request (request_in request) (closed (state_of self)) }
    {
        let fill = self.regs.tail_fill;
        let asked = slot_steps::ask(&mut self.tail, fill, owes, request);
        let youngest = self.regs.queues * (self.regs.block - 1);
        self.cells[youngest] = asked.cell;
        self.regs.tail_fill = asked.fill;
        self
    }

    // 4. "First a write": the chosen queue's b oldest tail bytes go to the next block of its ring. The queue is that of
    // `buffer_choices::to_write`.
    pub fn write(mut self, written: Option<u8>, store: &mut [u8]) -> State
        requires { WriteAsks (state_of self) (chosen_in written) store.old }
        ensures { (state_of result ≡ after_write (chosen_in written) (state_of self))
            × (store.new ≡ store_written (chosen_in written) (state_of self) store.old) }
    {
        let regs = self.regs;
        let fill = slot_steps::write(
            &mut self.tail,
            &self.firsts,
            &mut self.stored,
            regs,
            regs.tail_fill,
            written,
            store,
        );
        self.regs.tail_fill = fill;
        self
    }

    // 4. "Then a read": the chosen queue's first block goes to the head. The mark rises with the fill. The queue is that of
    // `buffer_choices::to_read`; `judge` rules out 10.
    pub fn read(mut self, chosen: Option<u8>, store: &[u8]) -> State
        requires { ReadAsks (state_of self) (chosen_in chosen) store.now }
        ensures { state_of result ≡ after_read (chosen_in chosen) (state_of self) store.now }
    {
        let regs = self.regs;
        let fill = slot_steps::read(
            &mut self.head,
            &mut self.firsts,
            &mut self.stored,
            regs,
            regs.head_fill,
            chosen,
            store,
        );
        self.regs.head_fill = fill;
        self.regs.head_mark = self.regs.head_mark.max(fill);
        self
    }

    // 5. "The phase rises by one, and after b - 1 comes 0."
    pub fn turn(mut self) -> State
        requires { (state_of self).phase < (state_of self).sizes.b }
        ensures { state_of result ≡ after_phase (state_of self) }
    {
        self.regs.phase = slot_steps::next_phase(self.regs.phase, self.regs.block);
        self
    }
}
