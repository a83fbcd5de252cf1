// The two cache sizes of document 01 are the least that serve: some list of slots fills each to its last byte.
// No function here makes a state or runs a slot. This one ties the statement to a contract, so that the gate must
// prove it.
#![tactic(auto)]

ghost use Rattle.model.specs.Sizes.{Limits};
ghost use Rattle.model_least.specs.Least.{Least};

// Neither cache can be smaller, under any limits of the sizes.
pub fn least()
    ensures { (limits : Limits) → Least limits }
{}
