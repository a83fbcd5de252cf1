// One command and its bytes, piece by piece: how many they are by the code, whether its place is right, its operands.
#![tactic(auto)]

ghost use Rattle.std.specs.Prelude.{◌≡◌};
ghost use Rattle.script_commands.specs.Commands.{kind_of, is_end};
ghost use Rattle.script_commands.specs.Values.{command_in};
ghost use Rattle.script_codes.specs.Says.{length_of, PlaceSays, Enough, CommandSays, CodedSays};

mod coded;

pub use coded::Coded;
use script_commands::Command;

// The codes of the commands.
const SIZES: u8 = 0x10;

const IDLE: u8 = 0x00;

const ARRIVE: u8 = 0x01;

const ASK: u8 = 0x02;

const BOTH: u8 = 0x03;

const IDLES: u8 = 0x04;

const END: u8 = 0x05;

// How many bytes a command of this code has, the code counted; none for an unknown code.
pub fn command_length(code: u8) -> Option<usize>
    ensures { result ≡ length_of (kind_of code) }
{
    match code {
        IDLE | END => Some(1),
        ASK => Some(2),
        ARRIVE | IDLES => Some(3),
        SIZES | BOTH => Some(4),
        _ => None,
    }
}

// Whether a command of this code is first and not sizes, or sizes again.
pub fn out_of_place(code: u8, first: bool) -> bool
    ensures { PlaceSays code first result }
{
    first != (code == SIZES)
}

// The command of a known code, with its operands: the end is the code that is left.
pub fn command_of(code: u8, operands: &[u8]) -> Command
    requires { Enough code operands.now }
    ensures { CommandSays code operands.now result }
{
    match code {
        SIZES => Command::Sizes(operands[0], operands[1], operands[2]),
        IDLE => Command::Idle,
        ARRIVE => Command::Arrive(operands[0], operands[1]),
        ASK => Command::Ask(operands[0]),
        BOTH => Command::Both(operands[0], operands[1], operands[2]),
        IDLES => Command::Idles(u16::from_le_bytes([operands[0], operands[1]])),
        _ => Command::End,
    }
}

// Whether a command is the end.
pub fn is_end(command: Command) -> bool
    ensures { result ≡ is_end (command_in command).kind }
{
    matches!(command, Command::End)
}

// A command as bytes.
pub fn encode(command: Command) -> Coded
    ensures { CodedSays command result }
{
    match command {
        Command::Sizes(queues, block, depth) => Coded::new(&[SIZES, queues, block, depth]),
        Command::Idle => Coded::new(&[IDLE]),
        Command::Arrive(queue, value) => Coded::new(&[ARRIVE, queue, value]),
        Command::Ask(queue) => Coded::new(&[ASK, queue]),
        Command::Both(queue, value, request) => Coded::new(&[BOTH, queue, value, request]),
        Command::Idles(count) => {
            let [low, high] = count.to_le_bytes();
            Coded::new(&[IDLES, low, high])
        }
        Command::End => Coded::new(&[END]),
    }
}
