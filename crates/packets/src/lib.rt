// Request 2.7: whole packets, a layer over the slot. The definitions are in specs/ and their theory in proofs/. No
// function here runs a slot: these tie the request's promise over lists, its sentences of one slot and its worked cases
// to contracts, so that the gate must prove them.
#![tactic(auto)]

ghost use Rattle.std.specs.Prelude.{◌≡◌, true, false};
ghost use Rattle.model.specs.Basics.{all_of, some_of};
ghost use Rattle.model.specs.Sizes.{Limits, Design};
ghost use Rattle.packets.specs.Whole.{WholePackets};
ghost use Rattle.packets.specs.Sentences.{PacketsSay};
ghost use Rattle.packets.specs.Examples.{packet_examples, false_packet_examples, holds};

// Lists of the layer's slots from a fresh state and record, under any limits of the sizes.
pub fn whole_packets()
    ensures { (limits : Limits) → WholePackets limits }
{}

// One slot of the layer, in any design, of any state and any record.
pub fn packet_slot_says()
    ensures { (design : Design) → PacketsSay design }
{}

// The worked cases of the request, as one table with one theorem for all rows.
pub fn packet_examples_hold()
    ensures { all_of holds packet_examples ≡ true }
{}

// No row that says one thing otherwise holds, so that a row says what it seems to say.
pub fn false_packet_examples_fail()
    ensures { some_of holds false_packet_examples ≡ false }
{}
