// One slot of the packet layer on lent arrays (request 2.7), whatever the arrays, the record and the store hold: 3 of
// state and record and 2 are judged first, and the rest is in place. The counts by queue are lent too, and are left
// right. The arrays are lent one by one: crates/layout says why.
#![tactic(auto)]

ghost use Rattle.std.specs.Prelude.{◌≡◌, ◌≤◌};
ghost use Rattle.packets.specs.Packets.{record_keeps};
ghost use Rattle.layout.specs.Calls.{number_in};
ghost use Rattle.layout.specs.Lengths.{queue_places};
ghost use Rattle.layout.specs.Lent.{given, found, left, counts_found, counts_left};
ghost use Rattle.layout.specs.Views.{Long, regs_in};
ghost use Rattle.packet_layout.specs.Views.{call_of, record_in, ListsLong};
ghost use Rattle.packet_in_place.specs.Says.{record_found_as, record_left_as, PacketAdvanceSays};
ghost use Rattle.packet_checked.specs.Says.{with_record, PacketLeaveSays};

use layout::{CellArray, CountArray, HeadArray, Refusal, RegArray, RingArray, TailArray};
use packet_layout::{
    LengthArray, ListedArray, PacketCall, PacketRegArray, PacketRegs, PacketReply,
};

// 3 and 2 of state and record, by what is judged of the state. The record is judged only where the state keeps the rules,
// and so has at most as many queues as there are lists.
fn with_record(
    state: Result<(), Refusal>,
    packet: PacketRegs,
    lengths: &LengthArray,
    listed: &ListedArray,
    queues: usize,
) -> Result<(), Refusal>
    requires { ListsLong lengths.now listed.now × ((number_in state ≡ 3 → ⊥) → queues ≤ queue_places) }
    ensures { number_in result ≡ with_record (number_in state)
        (record_keeps queues (record_in packet lengths.now listed.now)) }
{
    let broken = matches!(state, Err(Refusal::BrokenRules));
    if broken || packet_record::record_keeps(packet, lengths, listed, queues) {
        return state;
    }
    Err(Refusal::BrokenRules)
}

pub fn slot(
    tail: &mut TailArray,
    head: &mut HeadArray,
    cells: &mut CellArray,
    firsts: &mut RingArray,
    stored: &mut RingArray,
    tails: &mut CountArray,
    heads: &mut CountArray,
    owing: &mut CountArray,
    regs: &mut RegArray,
    packet_regs: &mut PacketRegArray,
    lengths: &mut LengthArray,
    listed: &mut ListedArray,
    call: PacketCall,
    store: &mut [u8],
) -> PacketReply
    requires { Long (given tail head cells firsts stored) × ListsLong lengths.old listed.old }
    ensures { PacketAdvanceSays (regs_in regs.old) (found tail head cells firsts stored)
        store.old (record_found_as packet_regs lengths listed) (call_of call) result
        (regs_in regs.new) (left tail head cells firsts stored) store.new
        (record_left_as packet_regs lengths listed)
        × PacketLeaveSays (regs_in regs.old) (found tail head cells firsts stored)
        (counts_found tails heads owing) store.old (record_found_as packet_regs lengths listed)
        (regs_in regs.new) (left tail head cells firsts stored)
        (counts_left tails heads owing) store.new (record_left_as packet_regs lengths listed) }
{
    let before = layout::regs_in(regs);
    let packet = packet_layout::regs_in(packet_regs);
    let state = slot_checked::judge_state(
        tail,
        head,
        cells,
        firsts,
        stored,
        tails,
        heads,
        owing,
        before,
        store.len(),
    );
    if let Err(refusal) = with_record(state, packet, lengths, listed, before.queues) {
        return PacketReply {
            reply: Err(refusal),
            packet_dropped: false,
        };
    }
    packet_in_place::advance(
        tail,
        tails,
        head,
        heads,
        cells,
        owing,
        firsts,
        stored,
        regs,
        packet_regs,
        lengths,
        listed,
        call,
        store,
    )
}
