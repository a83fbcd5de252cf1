// What C callers of the packet layer (request 2.7) hand in and begin with: a call as one number, whose bits
// specs/Words.antt lays out, and a fresh record.
#![tactic(auto)]

ghost use Rattle.std.specs.Prelude.{◌≡◌};
ghost use Rattle.packet_layout.specs.Views.{arrival_of, request_of, call_of};
ghost use Rattle.c_packets.specs.Words.{packet_call_of};
ghost use Rattle.c_packets.specs.Says.{OpenSays};

use layout::QUEUE_PLACES;
use packet_layout::{
    LENGTH_PLACES, LengthArray, ListedArray, PACKET_REGS, PacketByte, PacketCall, PacketRegArray,
};
use run_words::{ARRIVES, ASKS, CALL_QUEUES, REQUEST};

// Above the fields of a slot's call lie the length of a start, of 16 bits, and the bit that tells whether the byte is one.
const LENGTH: u64 = 1 << 42;

const CALL_LENGTHS: u64 = 1 << 16;

const STARTS: u64 = 1 << 58;

// What of a packet comes in a call.
pub fn packet_arrival_in(word: u64) -> Option<PacketByte>
    ensures { arrival_of result ≡ (packet_call_of word).arrival }
{
    if word / ARRIVES % 2 == 0 {
        return None;
    }
    let value = (word % 256) as u8;
    if word / STARTS % 2 == 0 {
        return Some(PacketByte::Continues(value));
    }
    Some(PacketByte::Starts {
        queue: (word / 256 % CALL_QUEUES) as u16,
        size: (word / LENGTH % CALL_LENGTHS) as u16,
        value,
    })
}

// The packet request of a call.
pub fn packet_request_in(word: u64) -> Option<u16>
    ensures { request_of result ≡ (packet_call_of word).request }
{
    if word / ASKS % 2 == 0 {
        return None;
    }
    Some((word / REQUEST % CALL_QUEUES) as u16)
}

// The call that a number stands for.
pub fn packet_call_in(word: u64) -> PacketCall
    ensures { call_of result ≡ packet_call_of word }
{
    PacketCall {
        arrival: packet_arrival_in(word),
        request: packet_request_in(word),
    }
}

// A fresh record.
pub fn open(regs: &mut PacketRegArray, lengths: &mut LengthArray, listed: &mut ListedArray)
    ensures { OpenSays regs.new lengths.new listed.new }
{
    *regs = [0; PACKET_REGS];
    *lengths = [0; LENGTH_PLACES];
    *listed = [0; QUEUE_PLACES];
}
