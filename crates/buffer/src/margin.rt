// "The margin of a queue is its head bytes less its Owed cells": a signed number, of any state and any queue.
ghost use Rattle.buffer.specs.Says.{state_of};
ghost use Rattle.buffer.specs.OneStep.{MarginSays};

use crate::State;

impl State {
    // Below zero the queue is critical, at zero its head bytes are just its Owed cells, above zero it has more. Where a
    // fill is past its array, the bytes are those of the array: such a state breaks a rule, and still has a margin.
    pub fn margin(self, queue: u16) -> i32
        ensures { MarginSays (state_of self) queue result }
    {
        buffer_margin::margin(
            &self.head,
            &self.cells,
            self.regs.head_fill,
            self.regs.queues,
            self.regs.block,
            queue,
        )
    }
}
