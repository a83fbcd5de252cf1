// How the packet layer's record (request 2.7) lies in registers and arrays, and what a slot of the layer is asked and
// answers: values, types and lengths that the crates above share.
#![tactic(auto)]

ghost use Rattle.std.specs.Prelude.{◌≡◌, [], ◌<◌};
ghost use Rattle.packets.specs.Packets.{byte_in, byte_asked};
ghost use Rattle.layout.specs.Calls.{arrival_in, request_in};
ghost use Rattle.packet_layout.specs.Views.{packet_regs_in, incoming_of, record_in, arrival_of, QueueFits};

use layout::{Byte, QUEUE_PLACES, Reply};

/// A byte of a packet, as it arrives: the first, with the packet's queue and length, or a next one.
#[derive(Clone, Copy, PartialEq, Eq, Debug)]
pub enum PacketByte {
    Starts { queue: u16, size: u16, value: u8 },
    Continues(u8),
}

/// What a slot of the layer is asked: the byte that arrives, and the queue that a packet is requested of.
#[derive(Clone, Copy, PartialEq, Eq, Debug, Default)]
pub struct PacketCall {
    pub arrival: Option<PacketByte>,
    pub request: Option<u16>,
}

/// What a slot of the layer tells: what the buffer's slot does, and whether the packet request was dropped (7).
#[derive(Clone, Copy, PartialEq, Eq, Debug)]
pub struct PacketReply {
    pub reply: Reply,
    pub packet_dropped: bool,
}

// A list has at most so many lengths, and so many places for them.
pub const MOST_LISTED: usize = 32;

// A packet has at most so many bytes.
pub const LONGEST_PACKET: u16 = 9016;

// The lists, queue by queue, and how many lengths each has, in arrays of one length: C callers lend them, and there is
// no heap.
pub const LENGTH_PLACES: usize = 2048;

pub type LengthArray = [u16; LENGTH_PLACES];

pub type ListedArray = [u8; QUEUE_PLACES];

/// A packet that comes in: its queue, its length and how many of its bytes are in.
#[derive(Clone, Copy, PartialEq, Eq, Debug)]
pub struct Coming {
    pub queue: u16,
    pub size: u16,
    pub bytes_in: u16,
}

/// All of a record but its lists: the packet that comes in; the queue of the packet last asked for, and how many byte
/// requests of it are left.
#[derive(Clone, Copy, PartialEq, Eq, Debug)]
pub struct PacketRegs {
    pub coming: Option<Coming>,
    pub asked: u16,
    pub left: u16,
}

// The same where a caller lends it: any first number but 0 says that a packet comes in, whose three numbers follow, and
// where none comes in those are no part of the record. Then the packet last asked for.
pub const PACKET_REGS: usize = 6;

pub type PacketRegArray = [u16; PACKET_REGS];

pub fn regs_in(regs: &PacketRegArray) -> PacketRegs
    ensures { result ≡ packet_regs_in regs.now }
{
    let [comes, queue, size, bytes_in, asked, left] = *regs;
    PacketRegs {
        coming: (comes != 0).then_some(Coming {
            queue,
            size,
            bytes_in,
        }),
        asked,
        left,
    }
}

pub fn put_regs(regs: &mut PacketRegArray, next: PacketRegs)
    ensures { packet_regs_in regs.new ≡ next }
{
    *regs = match next.coming {
        Some(packet) => [
            1,
            packet.queue,
            packet.size,
            packet.bytes_in,
            next.asked,
            next.left,
        ],
        None => [0, 0, 0, 0, next.asked, next.left],
    };
}

// The byte that the layer hands to the buffer.
pub fn byte_in(regs: PacketRegs, arrival: Option<PacketByte>) -> Option<Byte>
    requires { QueueFits (byte_in (incoming_of regs) (arrival_of arrival)) }
    ensures { arrival_in result ≡ byte_in (incoming_of regs) (arrival_of arrival) }
{
    let (queue, value) = match arrival? {
        PacketByte::Starts { queue, value, .. } => (queue, value),
        PacketByte::Continues(value) => (regs.coming?.queue, value),
    };
    Some(Byte {
        queue: queue as u8,
        value,
    })
}

// The byte request that it hands to the buffer.
pub fn byte_asked(regs: PacketRegs) -> Option<u8>
    requires { regs.asked < 256 }
    ensures { request_in result ≡ byte_asked (record_in regs [] []) }
{
    (regs.left != 0).then_some(regs.asked as u8)
}
