// The packet layer's record (request 2.7) as its slots change it: a length enters a list or leaves it, the record is
// judged, and a slot's turn of it is taken. No function has a loop inside another.
#![tactic(auto)]

ghost use Rattle.std.specs.Prelude.{◌≡◌, true, List, [], ℕ, ◌+◌, ◌≤◌, ◌<◌, length, get_or};
ghost use Rattle.std.proofs.Math.Option.{none};
ghost use Rattle.model.specs.Basics.{choose, all_of, all_below, tabulate};
ghost use Rattle.layout.specs.Calls.{arrival_number_in, request_number_in};
ghost use Rattle.layout.specs.Lengths.{queue_places};
ghost use Rattle.packets.specs.Packets.{most_listed, length_ok, coming_to, list_ok, coming_ok, record_keeps};
ghost use Rattle.packets.specs.Packets.{packet_drops, incoming_after, left_after, record_after};
ghost use Rattle.packet_layout.specs.Lengths.{length_places};
ghost use Rattle.packet_layout.specs.Views.{arrival_of, request_of, call_of, incoming_of, record_in, ListsLong};
ghost use Rattle.packet_record.specs.Says.{ShortBefore, EnterSays, TakeSays, RequestBelow, TurnFacts};
ghost use Rattle.packet_record.specs.Says.{RequestFits, LeftAs, AskSays, arriving, NotWhole, ComesAs, PlaceIfWhole};
ghost use Rattle.packet_record.specs.Says.{WholeSays, TurnSays};

use layout::Outcome;
use packet_layout::{
    Coming, LONGEST_PACKET, LengthArray, ListedArray, MOST_LISTED, PacketByte, PacketCall,
    PacketRegs,
};

// A length enters the list of queue q, as its newest.
pub fn enter(lengths: &mut LengthArray, listed: &mut ListedArray, q: usize, size: u16)
    requires { ListsLong lengths.old listed.old × (q < queue_places) × ShortBefore q listed.old
        × (get_or listed.old q 0 < most_listed) }
    ensures { EnterSays q size lengths.old listed.old lengths.new
        listed.new }
{
    let count = listed[q];
    lengths[q * MOST_LISTED + (count as usize)] = size;
    listed[q] = count + 1;
}

// The oldest length leaves the list of queue q, and is returned.
pub fn take_oldest(lengths: &mut LengthArray, listed: &mut ListedArray, q: usize) -> u16
    requires { ListsLong lengths.old listed.old × (q < queue_places) × ShortBefore q listed.old
        × (1 ≤ get_or listed.old q 0) × (get_or listed.old q 0 ≤ most_listed) }
    ensures { TakeSays q lengths.old listed.old result lengths.new
        listed.new }
{
    let first = q * MOST_LISTED;
    let count = listed[q];
    let oldest = lengths[first];
    lengths.copy_within(first + 1..first + count as usize, first);
    listed[q] = count - 1;
    oldest
}

// Whether a length is in the range.
fn length_ok(size: u16) -> bool
    ensures { result ≡ length_ok size }
{
    (1..=LONGEST_PACKET).contains(&size)
}

// Whether `count` lengths from `first` on are all in the range.
fn lengths_keep(lengths: &LengthArray, first: usize, count: usize) -> bool
    requires { first + count ≤ length_places }
    ensures { result ≡ all_of length_ok (tabulate count (λ i. get_or lengths.now (first + i) 0)) }
{
    lengths[first..first + count]
        .iter()
        .all(|&size| length_ok(size))
}

// How many packets come in to queue q.
fn coming_to(regs: PacketRegs, q: usize) -> usize
    ensures { result ≡ coming_to q (incoming_of regs) }
{
    match regs.coming {
        Some(packet) if packet.queue as usize == q => 1,
        _ => 0,
    }
}

// Whether the list of one queue keeps the rules: it is short enough, counted with a packet that comes in to it, and its
// lengths are in the range. A list that is too long is not read.
fn list_keeps(regs: PacketRegs, lengths: &LengthArray, listed: &ListedArray, q: usize) -> bool
    requires { ListsLong lengths.now listed.now × (q < queue_places) }
    ensures { result ≡ list_ok (record_in regs lengths.now listed.now) q }
{
    let count = listed[q] as usize;
    count + coming_to(regs, q) <= MOST_LISTED && lengths_keep(lengths, q * MOST_LISTED, count)
}

// Whether the list of each queue does.
fn lists_keep(regs: PacketRegs, lengths: &LengthArray, listed: &ListedArray, queues: usize) -> bool
    requires { ListsLong lengths.now listed.now × (queues ≤ queue_places) }
    ensures { result ≡ all_below queues (list_ok (record_in regs lengths.now listed.now)) }
{
    (0..queues).all(|q| list_keeps(regs, lengths, listed, q))
}

// Whether the packet coming in keeps the rules.
fn coming_keeps(regs: PacketRegs, queues: usize) -> bool
    ensures { result ≡ coming_ok queues (incoming_of regs) }
{
    regs.coming.is_none_or(|packet| {
        (packet.queue as usize) < queues && length_ok(packet.size) && packet.bytes_in < packet.size
    })
}

// Whether a record keeps the rules, judged on any numbers and any arrays.
pub fn record_keeps(
    regs: PacketRegs,
    lengths: &LengthArray,
    listed: &ListedArray,
    queues: usize,
) -> bool
    requires { ListsLong lengths.now listed.now × (queues ≤ queue_places) }
    ensures { result ≡ record_keeps queues (record_in regs lengths.now listed.now) }
{
    (regs.asked as usize) < queues
        && regs.left <= LONGEST_PACKET
        && coming_keeps(regs, queues)
        && lists_keep(regs, lengths, listed, queues)
}

// Whether a packet request is dropped: byte requests of an earlier one are left, or no whole packet is listed.
pub fn drops(regs: PacketRegs, listed: &ListedArray, request: Option<u16>) -> bool
    requires { RequestBelow queue_places (request_of request) }
    ensures { (lengths : List ℕ)
        → result ≡ packet_drops (record_in regs lengths listed.now) (request_of request) }
{
    match request {
        Some(queue) => 0 < regs.left || listed[queue as usize] == 0,
        None => false,
    }
}

// A byte request that was not dropped is one less that is left, if any was.
fn one_asked(regs: PacketRegs, request_dropped: bool) -> PacketRegs
    ensures { LeftAs (left_after (record_in regs [] []) none (choose request_dropped 7 0)) regs result }
{
    if request_dropped {
        return regs;
    }
    PacketRegs {
        left: regs.left.saturating_sub(1),
        ..regs
    }
}

// The packet request is dropped, or takes the oldest length out of its list and has so many byte requests left.
fn ask(
    regs: PacketRegs,
    lengths: &mut LengthArray,
    listed: &mut ListedArray,
    request: Option<u16>,
    request_dropped: bool,
) -> PacketRegs
    requires { ListsLong lengths.old listed.old × RequestFits listed.old (request_of request) }
    ensures { AskSays (record_in regs lengths.old listed.old) (request_of request)
        (choose request_dropped 7 0) result lengths.new listed.new }
{
    match request {
        Some(queue) if !drops(regs, listed, request) => {
            let left = take_oldest(lengths, listed, queue as usize);
            PacketRegs {
                asked: queue,
                left,
                ..regs
            }
        }
        _ => one_asked(regs, request_dropped),
    }
}

// The packet coming in with this slot's byte, if it was not dropped.
fn grow(regs: PacketRegs, arrival: Option<PacketByte>, arrival_dropped: bool) -> PacketRegs
    requires { NotWhole (incoming_of regs) }
    ensures { ComesAs (incoming_after (record_in regs [] []) (arriving (arrival_of arrival))
        (choose arrival_dropped 5 0)) regs result }
{
    if arrival_dropped {
        return regs;
    }
    let coming = match (arrival, regs.coming) {
        (Some(PacketByte::Starts { queue, size, .. }), _) => Some(Coming {
            queue,
            size,
            bytes_in: 1,
        }),
        (Some(PacketByte::Continues(_)), Some(packet)) => Some(Coming {
            bytes_in: packet.bytes_in + 1,
            ..packet
        }),
        _ => regs.coming,
    };
    PacketRegs { coming, ..regs }
}

// A packet that is whole comes in no more, and its length enters its list.
fn enter_whole(regs: PacketRegs, lengths: &mut LengthArray, listed: &mut ListedArray) -> PacketRegs
    requires { ListsLong lengths.old listed.old × PlaceIfWhole listed.old (incoming_of regs) }
    ensures { WholeSays lengths.old listed.old regs result lengths.new
        listed.new }
{
    match regs.coming {
        Some(packet) if packet.size <= packet.bytes_in => {
            enter(lengths, listed, packet.queue as usize, packet.size);
            PacketRegs {
                coming: None,
                ..regs
            }
        }
        _ => regs,
    }
}

// The record's part of an accepted slot, by what the buffer's slot did: first the packet that is asked for is taken
// out, and then a packet that is now whole enters.
pub fn turn(
    regs: PacketRegs,
    lengths: &mut LengthArray,
    listed: &mut ListedArray,
    call: PacketCall,
    outcome: Outcome,
) -> PacketRegs
    requires { ListsLong lengths.old listed.old
        × TurnFacts (record_in regs lengths.old listed.old) (call_of call) }
    ensures { TurnSays (record_after (record_in regs lengths.old listed.old) (call_of call)
        (arrival_number_in outcome) (request_number_in outcome)) result lengths.new listed.new }
{
    let asked = ask(regs, lengths, listed, call.request, outcome.request_dropped);
    let grown = grow(asked, call.arrival, outcome.arrival_dropped);
    enter_whole(grown, lengths, listed)
}
