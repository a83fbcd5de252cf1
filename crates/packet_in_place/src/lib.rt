// One slot of the packet layer on lent arrays (request 2.7): its own refusals, the slot of the byte and the byte
// request that it hands to the buffer, and the record's part of it. The arrays are lent one by one: crates/layout says
// why.
#![tactic(auto)]

ghost use Rattle.std.specs.Prelude.{◌≡◌, [], ◌<◌};
ghost use Rattle.packets.specs.Packets.{byte_in, byte_call};
ghost use Rattle.layout.specs.Calls.{arrival_number_in, request_number_in};
ghost use Rattle.layout.specs.Lent.{given, found, left, counts_given, counts_left};
ghost use Rattle.layout.specs.Views.{regs_in};
ghost use Rattle.packet_layout.specs.Lent.{record_given};
ghost use Rattle.packet_layout.specs.Views.{arrival_of, call_of, incoming_of, record_in, ListsLong, QueueFits};
ghost use Rattle.packet_record.specs.Says.{TurnFacts};
ghost use Rattle.run_words.specs.Words as words;
ghost use Rattle.slot_in_place.specs.Says.{Ready};
ghost use Rattle.packet_in_place.specs.Says.{record_given_as, record_found_as, record_left_as, RecordReady, TakesTurn};
ghost use Rattle.packet_in_place.specs.Says.{PacketAdvanceSays};

use layout::{Call, CellArray, CountArray, HeadArray, Outcome, RegArray, RingArray, TailArray};
use packet_layout::{
    LengthArray, ListedArray, PacketCall, PacketRegArray, PacketRegs, PacketReply,
};

// The byte and the byte request that the layer hands to the buffer, as the call of a run.
fn byte_word(packet: PacketRegs, call: PacketCall) -> u64
    requires { QueueFits (byte_in (incoming_of packet) (arrival_of call.arrival)) × (packet.asked < 256) }
    ensures { words.call_of result ≡ byte_call (record_in packet [] []) (call_of call) }
{
    run_words::call_word(Call {
        arrival: packet_layout::byte_in(packet, call.arrival),
        request: packet_layout::byte_asked(packet),
    })
}

// The record's part of an accepted slot, by what the buffer's slot did, and whether the packet request is dropped.
fn take_turn(
    packet_regs: &mut PacketRegArray,
    lengths: &mut LengthArray,
    listed: &mut ListedArray,
    call: PacketCall,
    outcome: Outcome,
) -> bool
    requires { ListsLong lengths.old listed.old
        × TurnFacts (record_given packet_regs lengths listed) (call_of call) }
    ensures { TakesTurn (record_found_as packet_regs lengths listed) (call_of call)
        (arrival_number_in outcome) (request_number_in outcome) result (record_left_as packet_regs lengths listed) }
{
    let before = packet_layout::regs_in(packet_regs);
    let dropped = packet_record::drops(before, listed, call.request);
    let after = packet_record::turn(before, lengths, listed, call, outcome);
    packet_layout::put_regs(packet_regs, after);
    dropped
}

// The slot itself is a run of one call.
pub fn advance(
    tail: &mut TailArray,
    tails: &mut CountArray,
    head: &mut HeadArray,
    heads: &mut CountArray,
    cells: &mut CellArray,
    owing: &mut CountArray,
    firsts: &mut RingArray,
    stored: &mut RingArray,
    regs: &mut RegArray,
    packet_regs: &mut PacketRegArray,
    lengths: &mut LengthArray,
    listed: &mut ListedArray,
    call: PacketCall,
    store: &mut [u8],
) -> PacketReply
    requires { Ready (regs_in regs.old) (given tail head cells firsts stored)
        (counts_given tails heads owing) store.old
        × RecordReady (regs_in regs.old).queues (record_given_as packet_regs lengths listed) }
    ensures { PacketAdvanceSays (regs_in regs.old) (found tail head cells firsts stored)
        store.old (record_found_as packet_regs lengths listed) (call_of call) result
        (regs_in regs.new) (left tail head cells firsts stored) store.new
        (record_left_as packet_regs lengths listed)
        × Ready (regs_in regs.new) (left tail head cells firsts stored)
        (counts_left tails heads owing) store.new
        × RecordReady (regs_in regs.new).queues (record_left_as packet_regs lengths listed) }
{
    let before = layout::regs_in(regs);
    let packet = packet_layout::regs_in(packet_regs);
    if let Err(refusal) = packet_refusals::judge(tails, stored, before, packet, listed, call) {
        return PacketReply {
            reply: Err(refusal),
            packet_dropped: false,
        };
    }
    let calls = [byte_word(packet, call)];
    let mut answers = [0u64; 1];
    let reply = run_in_place::run_calls(
        tail,
        tails,
        head,
        heads,
        cells,
        owing,
        firsts,
        stored,
        regs,
        &calls,
        &mut answers,
        store,
    );
    let packet_dropped = match reply {
        Ok(outcome) => take_turn(packet_regs, lengths, listed, call, outcome),
        Err(_) => false,
    };
    PacketReply {
        reply,
        packet_dropped,
    }
}
