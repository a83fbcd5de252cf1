// The refusals that the packet layer judges before the buffer (request 2.7): 4, 20, 21, 22 and 6, in this order, by
// counts of each queue, so that a slot that one of them stops has nothing to undo.
#![tactic(auto)]

ghost use Rattle.std.specs.Prelude.{◌≡◌, true, false, [], ◌<◌};
ghost use Rattle.model.specs.Sizes.{paper_limits, accepts};
ghost use Rattle.packets.specs.Packets.{length_wrong};
ghost use Rattle.layout.specs.Calls.{number_in};
ghost use Rattle.layout.specs.Counts.{by_queue};
ghost use Rattle.layout.specs.Entries.{counts_in};
ghost use Rattle.layout.specs.Views.{sizes_in};
ghost use Rattle.layout.specs.Figures.{figures_in};
ghost use Rattle.packet_layout.specs.Views.{arrival_of, request_of, incoming_of};
ghost use Rattle.packet_refusals.specs.Says.{arrival_unknown_now, StartIn, no_place_now, free_store_now, no_room_now};
ghost use Rattle.packet_refusals.specs.Says.{request_unknown_now, packet_number};

use layout::{CountArray, Refusal, Regs, RingArray};
use packet_layout::{LONGEST_PACKET, ListedArray, MOST_LISTED, PacketByte, PacketCall, PacketRegs};

// 4: the byte's queue.
fn arrival_unknown(regs: Regs, packet: PacketRegs, arrival: Option<PacketByte>) -> bool
    ensures { result ≡ arrival_unknown_now (sizes_in regs) (incoming_of packet) (arrival_of arrival) }
{
    match (arrival, packet.coming) {
        (Some(PacketByte::Starts { queue, .. }), _) => regs.queues <= queue as usize,
        (Some(PacketByte::Continues(_)), Some(coming)) => regs.queues <= coming.queue as usize,
        _ => false,
    }
}

// 20: a start's length, and a next byte with no packet coming in.
fn length_wrong(packet: PacketRegs, arrival: Option<PacketByte>) -> bool
    ensures { result ≡ length_wrong (incoming_of packet) (arrival_of arrival) }
{
    match arrival {
        Some(PacketByte::Starts { size, .. }) => !(1..=LONGEST_PACKET).contains(&size),
        Some(PacketByte::Continues(_)) => packet.coming.is_none(),
        None => false,
    }
}

// 21: at a start, another packet comes in or the list is full.
fn no_place(packet: PacketRegs, listed: &ListedArray, arrival: Option<PacketByte>) -> bool
    requires { StartIn (arrival_of arrival) }
    ensures { result ≡ no_place_now (counts_in listed.now) (incoming_of packet) (arrival_of arrival) }
{
    let Some(PacketByte::Starts { queue, .. }) = arrival else {
        return false;
    };
    packet.coming.is_some() || MOST_LISTED <= listed[queue as usize] as usize
}

// A queue's free store; with more than K × b used it is 0.
fn free_store(tails: &CountArray, stored: &RingArray, regs: Regs, q: usize) -> usize
    requires { (accepts paper_limits (sizes_in regs) ≡ true) × (q < regs.queues) }
    ensures { result ≡ free_store_now (figures_in regs (by_queue tails.now [] []) stored.now) q }
{
    let used = (tails[q] as usize) + regs.block * (stored[q] as usize);
    (regs.depth * regs.block).saturating_sub(used)
}

// 22: at a start, the queue's free store is below the length.
fn no_room(
    tails: &CountArray,
    stored: &RingArray,
    regs: Regs,
    packet: PacketRegs,
    arrival: Option<PacketByte>,
) -> bool
    requires { (accepts paper_limits (sizes_in regs) ≡ true)
        × (arrival_unknown_now (sizes_in regs) (incoming_of packet) (arrival_of arrival) ≡ false) }
    ensures { result ≡ no_room_now (figures_in regs (by_queue tails.now [] []) stored.now)
        (arrival_of arrival) }
{
    let Some(PacketByte::Starts { queue, size, .. }) = arrival else {
        return false;
    };
    free_store(tails, stored, regs, queue as usize) < size as usize
}

// 6: the packet request's queue.
fn request_unknown(regs: Regs, request: Option<u16>) -> bool
    ensures { result ≡ request_unknown_now (sizes_in regs) (request_of request) }
{
    request.is_some_and(|queue| regs.queues <= queue as usize)
}

// The first of them in the request's order, if there is one.
pub fn judge(
    tails: &CountArray,
    stored: &RingArray,
    regs: Regs,
    packet: PacketRegs,
    listed: &ListedArray,
    call: PacketCall,
) -> Result<(), Refusal>
    requires { accepts paper_limits (sizes_in regs) ≡ true }
    ensures { number_in result ≡ packet_number (figures_in regs (by_queue tails.now [] []) stored.now)
        (counts_in listed.now) (incoming_of packet) (arrival_of call.arrival) (request_of call.request) }
{
    if arrival_unknown(regs, packet, call.arrival) {
        return Err(Refusal::UnknownArrival);
    }
    if length_wrong(packet, call.arrival) {
        return Err(Refusal::PacketLength);
    }
    if no_place(packet, listed, call.arrival) {
        return Err(Refusal::PacketPlace);
    }
    if no_room(tails, stored, regs, packet, call.arrival) {
        return Err(Refusal::PacketRoom);
    }
    if request_unknown(regs, call.request) {
        return Err(Refusal::UnknownRequest);
    }
    Ok(())
}
