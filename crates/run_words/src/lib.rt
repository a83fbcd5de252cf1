// Calls and answers of slots as one number each, for runs of many slots over lent slices. specs/Words.antt has the
// layout of their bits.
#![tactic(auto)]

ghost use Rattle.std.specs.Prelude.{◌≡◌, ◌<◌};
ghost use Rattle.layout.specs.Calls.{chosen_in, arrival_in, request_in, delivery_in, call_in, reply_in, told_in};
ghost use Rattle.run_words.specs.Words.{call_queues, answer_queues, byte_word, queue_word, byte_in, queue_in, call_of};
ghost use Rattle.run_words.specs.Words.{answer_word, number_of, arrival_number_of, request_number_of};
ghost use Rattle.run_words.specs.Words.{answer_slots, slots_left_of, delivered_of, written_of, read_of};
ghost use Rattle.run_words.specs.Words.{nearest, near_byte, near_queue, near_call};

use layout::{Byte, Call, Reply, Told};

// A call: its queues have 16 bits, bit 24 tells whether a byte arrives, from bit 25 on lies the queue requested, and
// bit 41 tells whether there is one.
pub const CALL_QUEUES: u64 = 1 << 16;

pub const ARRIVES: u64 = 1 << 24;

pub const REQUEST: u64 = 1 << 25;

pub const ASKS: u64 = 1 << 41;

// An answer: its queues have 10 bits, bit 18 tells of a delivery; above it lie the queue written, the queue read, the
// slots left, of 13 bits, the two halves dropped and the number.
const ANSWER_QUEUES: u64 = 1 << 10;

const DELIVERS: u64 = 1 << 18;

const WRITTEN: u64 = 1 << 19;

const READ: u64 = 1 << 30;

const SLOTS_LEFT: u64 = 1 << 41;

const ANSWER_SLOTS: u64 = 1 << 13;

const ARRIVAL_DROPPED: u64 = 1 << 54;

const REQUEST_DROPPED: u64 = 1 << 55;

const NUMBER: u64 = 1 << 56;

// The queue of 8 bits that is nearest to one of more.
fn near_queue(queue: u64) -> u8
    ensures { result ≡ nearest queue }
{
    queue.min(255) as u8
}

// An arrival as 25 bits.
fn arrival_bits(arrival: Option<Byte>) -> u64
    ensures { (result < 33554432) × (byte_in call_queues result ≡ arrival_in arrival) }
{
    arrival.map_or(0, |byte| {
        ARRIVES + u64::from(byte.queue) * 256 + u64::from(byte.value)
    })
}

// A request as 17 bits.
fn request_bits(request: Option<u8>) -> u64
    ensures { (result < 131072) × (queue_in call_queues result ≡ request_in request) }
{
    request.map_or(0, |queue| CALL_QUEUES + u64::from(queue))
}

// A call as one number.
pub fn call_word(call: Call) -> u64
    ensures { call_of result ≡ call_in call }
{
    request_bits(call.request) * REQUEST + arrival_bits(call.arrival)
}

// The arrival of a call.
pub fn arrival_in(word: u64) -> Option<Byte>
    ensures { arrival_in result ≡ near_byte (call_of word).arrival }
{
    if word / ARRIVES % 2 == 0 {
        return None;
    }
    Some(Byte {
        queue: near_queue(word / 256 % CALL_QUEUES),
        value: (word % 256) as u8,
    })
}

// The request of a call.
pub fn request_in(word: u64) -> Option<u8>
    ensures { request_in result ≡ near_queue (call_of word).request }
{
    if word / ASKS % 2 == 0 {
        return None;
    }
    Some(near_queue(word / REQUEST % CALL_QUEUES))
}

// The call that a number stands for.
pub fn call_in(word: u64) -> Call
    ensures { call_in result ≡ near_call (call_of word) }
{
    Call {
        arrival: arrival_in(word),
        request: request_in(word),
    }
}

// A delivery as 19 bits.
fn delivery_bits(delivery: Option<Byte>) -> u64
    ensures { (result < 524288) × (result ≡ byte_word (delivery_in delivery)) }
{
    delivery.map_or(0, |byte| {
        DELIVERS + u64::from(byte.queue) * 256 + u64::from(byte.value)
    })
}

// A queue or none as 11 bits.
fn chosen_bits(chosen: Option<u8>) -> u64
    ensures { (result < 2048) × (result ≡ queue_word (chosen_in chosen)) }
{
    chosen.map_or(0, |queue| ANSWER_QUEUES + u64::from(queue))
}

// What a slot tells as one number: the number that stopped it or 0, which halves it dropped, the slots left at a read,
// the queue read, the queue written and the byte delivered.
pub fn answer_word(told: Told) -> u64
    requires { told.slots_left < answer_slots }
    ensures { result ≡ answer_word (told_in told) }
{
    u64::from(told.number) * NUMBER
        + u64::from(told.request_number != 0) * REQUEST_DROPPED
        + u64::from(told.arrival_number != 0) * ARRIVAL_DROPPED
        + u64::from(told.slots_left) * SLOTS_LEFT
        + chosen_bits(told.read) * READ
        + chosen_bits(told.written) * WRITTEN
        + delivery_bits(told.delivery)
}

// The same of a reply.
pub fn reply_word(reply: Reply) -> u64
    requires { (reply_in reply).slots_left < answer_slots }
    ensures { result ≡ answer_word (reply_in reply) }
{
    answer_word(Told::from(reply))
}

// The number that stopped the slot of an answer, or 0. A word may hold any number, also one that is no refusal's, and C
// reads it as a number.
pub fn number_in(answer: u64) -> u8
    ensures { result ≡ number_of answer }
{
    (answer / NUMBER % 256) as u8
}

// The numbers of an answer's halves: 5 or 0 of the arrival, 7 or 0 of the request.
pub fn arrival_number_in(answer: u64) -> u8
    ensures { result ≡ arrival_number_of answer }
{
    (answer / ARRIVAL_DROPPED % 2 * 5) as u8
}

pub fn request_number_in(answer: u64) -> u8
    ensures { result ≡ request_number_of answer }
{
    (answer / REQUEST_DROPPED % 2 * 7) as u8
}

// The slots left that an answer tells at a read.
pub fn slots_left_in(answer: u64) -> u16
    ensures { result ≡ slots_left_of answer }
{
    (answer / SLOTS_LEFT % ANSWER_SLOTS) as u16
}

// The byte that an answer delivers.
pub fn delivery_in(answer: u64) -> Option<Byte>
    ensures { delivery_in result ≡ near_byte (delivered_of answer) }
{
    if answer / DELIVERS % 2 == 0 {
        return None;
    }
    Some(Byte {
        queue: near_queue(answer / 256 % ANSWER_QUEUES),
        value: (answer % 256) as u8,
    })
}

// What the lowest 11 bits of a number say.
fn chosen_of(bits: u64) -> Option<u8>
    ensures { chosen_in result ≡ near_queue (queue_in answer_queues bits) }
{
    if bits / ANSWER_QUEUES % 2 == 0 {
        return None;
    }
    Some(near_queue(bits % ANSWER_QUEUES))
}

// The queue that an answer says was written.
pub fn written_in(answer: u64) -> Option<u8>
    ensures { chosen_in result ≡ near_queue (written_of answer) }
{
    chosen_of(answer / WRITTEN)
}

// The queue that an answer says was read.
pub fn read_in(answer: u64) -> Option<u8>
    ensures { chosen_in result ≡ near_queue (read_of answer) }
{
    chosen_of(answer / READ)
}
