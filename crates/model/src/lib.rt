// The model of document 01: its definitions are in specs/, one file for each section, and their theory in proofs/.
// No function here makes a state or runs a slot. These tie demand 3, the requests' own sentences, the examples and
// slots worked by hand to contracts, so that the gate must prove them.
#![tactic(auto)]

ghost use Rattle.std.specs.Prelude.{◌≡◌, true, false};
ghost use Rattle.model.specs.Basics.{all_of, some_of};
ghost use Rattle.model.specs.Sizes.{Limits, Design};
ghost use Rattle.model.specs.Demand.{Demand-3};
ghost use Rattle.model.specs.Swap.{SwapSays};
ghost use Rattle.model.specs.Halves.{HalvesSay, StopsLow};
ghost use Rattle.model.specs.SlotsLeft.{SlotsLeftSay, LeavesThen};
ghost use Rattle.model.specs.Fairness.{ArbiterSays, Fair};
ghost use Rattle.model.specs.HighMarks.{MarksExact};
ghost use Rattle.model.specs.Examples.{examples, holds};
ghost use Rattle.model.specs.RequestExamples.{request_examples};
ghost use Rattle.model.specs.FalseExamples.{false_examples};
ghost use Rattle.model.specs.Worked.{WorkedSlots, WorkedBlocks, WorkedIdle};

// Demand 3, under any limits of the sizes.
pub fn demand_3()
    ensures { (limits : Limits) → Demand-3 limits }
{}

// Request 2.1, in any design: what a slot that swaps does, and that all others answer as before.
pub fn swap_in_a_full_queue()
    ensures { (design : Design) → SwapSays design }
{}

// Request 2.2: what a slot does in which the arbiter chooses, in any design; how long a queue waits, under any limits.
pub fn round_robin_arbiter()
    ensures { ((design : Design) → ArbiterSays design) × ((limits : Limits) → Fair limits) }
{}

// Request 2.5: a dropped half never came, in any design; over lists no slot is refused but with 6 or lower.
pub fn line_does_not_wait()
    ensures { ((design : Design) → HalvesSay design) × ((limits : Limits) → StopsLow limits) }
{}

// Request 2.6: slots left are those of the cell that a read is for, in any design; over lists its byte leaves then.
pub fn slots_left_at_a_read()
    ensures { ((design : Design) → SlotsLeftSay design) × ((limits : Limits) → LeavesThen limits) }
{}

// Request 2.8, in any design: each high mark is exactly the greatest fill since the fresh state.
pub fn marks_exact()
    ensures { (design : Design) → MarksExact design }
{}

// "C1 to C12 are proved of the definitions, as one table with one theorem for all rows." The worked cases of the
// requests are a second table.
pub fn examples_hold()
    ensures { (all_of holds examples ≡ true) × (all_of holds request_examples ≡ true) }
{}

// No row that says one thing otherwise holds, so that a row says what it seems to say.
pub fn false_examples_fail()
    ensures { some_of holds false_examples ≡ false }
{}

// Slots worked by hand: ten with all that each says, where blocks lie, idle ones.
pub fn worked_slots()
    ensures { WorkedSlots × WorkedBlocks × WorkedIdle }
{}
