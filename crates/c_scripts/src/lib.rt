// Scripts: judging one, reading and writing a command, running one.
#![tactic(auto)]

ghost use Rattle.std.specs.Prelude.{◌≡◌};
ghost use Rattle.script_commands.specs.Commands.{kind_of};
ghost use Rattle.script_commands.specs.Scripts.{read_command, judge};
ghost use Rattle.script_commands.specs.Values.{command_in};
ghost use Rattle.script_text.specs.Run.{output_bound};
ghost use Rattle.c_scripts.specs.Says.{fault_of, numbers_of, put_of, cut_in, cut_command, CommandNamed, is_first};
ghost use Rattle.c_scripts.specs.Says.{reading_of, NumbersWritten, NumbersBack, ScriptRan};

use script_commands::Command;
use scripts::Refusal;

// A command as numbers: its code and its operands in the table's order, 0 for each that it does not have.
#[repr(C)]
#[derive(Clone, Copy, Debug, Default, PartialEq, Eq)]
pub struct Numbers {
    pub code: u16,
    pub one: u16,
    pub two: u16,
    pub three: u16,
}

// A script judged: 0, or the number of its first fault and the offset of its place. To C a refusal is its number, here and
// in what follows.
#[repr(C)]
#[derive(Clone, Copy, Debug, Default, PartialEq, Eq)]
pub struct Fault {
    pub offset: usize,
    pub number: u8,
}

// A command read: 0, the command and how many bytes it has; or the refusal and zeros.
#[repr(C)]
#[derive(Clone, Copy, Debug, Default, PartialEq, Eq)]
pub struct NumbersRead {
    pub length: usize,
    pub command: Numbers,
    pub number: u8,
}

// A command, or a whole script, written: 0 and how many bytes it has; or the refusal and 0.
#[repr(C)]
#[derive(Clone, Copy, Debug, Default, PartialEq, Eq)]
pub struct NumbersPut {
    pub length: usize,
    pub number: u8,
}

impl From<Result<usize, Refusal>> for NumbersPut {
    ghost from_gives = { λ written put. put ≡ put_of written };

    fn from(written: Result<usize, Refusal>) -> NumbersPut {
        match written {
            Ok(length) => NumbersPut { length, number: 0 },
            Err(refusal) => NumbersPut {
                length: 0,
                number: refusal.into(),
            },
        }
    }
}

// The numbers of a command.
impl From<Command> for Numbers {
    ghost from_gives = { λ command numbers. numbers ≡ numbers_of (command_in command) };

    fn from(command: Command) -> Numbers {
        let none = Numbers::default();
        match command {
            Command::Sizes(queues, block, depth) => Numbers {
                code: 16,
                one: queues.into(),
                two: block.into(),
                three: depth.into(),
            },
            Command::Idle => Numbers { code: 0, ..none },
            Command::Arrive(queue, value) => Numbers {
                code: 1,
                one: queue.into(),
                two: value.into(),
                ..none
            },
            Command::Ask(queue) => Numbers {
                code: 2,
                one: queue.into(),
                ..none
            },
            Command::Both(queue, value, request) => Numbers {
                code: 3,
                one: queue.into(),
                two: value.into(),
                three: request.into(),
            },
            Command::Idles(count) => Numbers {
                code: 4,
                one: count,
                ..none
            },
            Command::End => Numbers { code: 5, ..none },
        }
    }
}

// The command of a code, its operands cut to their widths; none for a code of no command.
fn command_cut(numbers: Numbers) -> Option<Command>
    ensures { cut_in result ≡ cut_command (kind_of numbers.code) numbers }
{
    let one = (numbers.one % 256) as u8;
    let two = (numbers.two % 256) as u8;
    let three = (numbers.three % 256) as u8;
    match numbers.code {
        16 => Some(Command::Sizes(one, two, three)),
        0 => Some(Command::Idle),
        1 => Some(Command::Arrive(one, two)),
        2 => Some(Command::Ask(one)),
        3 => Some(Command::Both(one, two, three)),
        4 => Some(Command::Idles(numbers.one)),
        5 => Some(Command::End),
        _ => None,
    }
}

// Numbers that fit are those that the widths cut nothing off.
impl TryFrom<Numbers> for Command {
    type Error = Refusal;

    ghost try_from_gives = { CommandNamed };

    fn try_from(numbers: Numbers) -> Result<Command, Refusal> {
        let command = command_cut(numbers).ok_or(Refusal::UnknownCode)?;
        if Numbers::from(command) != numbers {
            return Err(Refusal::DoesNotFit);
        }
        Ok(command)
    }
}

// A whole script, before any slot runs.
pub fn script_judge(script: &[u8]) -> Fault
    ensures { result ≡ fault_of (judge script.now) }
{
    match scripts::judge(script) {
        Ok(()) => Fault::default(),
        Err(fault) => Fault {
            offset: fault.offset,
            number: fault.refusal.into(),
        },
    }
}

// The command at the front of what is left of a script; `first` is 0 where it is not to be the script's first.
pub fn script_read(rest: &[u8], first: u8) -> NumbersRead
    ensures { result ≡ reading_of (read_command (is_first first) rest.now) }
{
    match scripts::read(rest, first != 0) {
        Ok((command, length)) => NumbersRead {
            length,
            command: command.into(),
            number: 0,
        },
        Err(refusal) => NumbersRead {
            number: refusal.into(),
            ..NumbersRead::default()
        },
    }
}

// A command at the front of the output.
pub fn script_write(command: Numbers, output: &mut [u8]) -> NumbersPut
    ensures { NumbersWritten command output.old result output.new }
{
    match Command::try_from(command) {
        Ok(known) => scripts::write(known, output).into(),
        Err(refusal) => Err(refusal).into(),
    }
}

// How much output `script_run` asks for a script of so many bytes, whatever they are.
pub fn script_output(script_bytes: usize) -> usize
    ensures { result ≡ output_bound script_bytes }
{
    script_runner::output_asked(script_bytes)
}

// A script run on a store: how many bytes it printed. No script prints nothing, so that 0 says that the output is
// shorter than `script_output` of the script's length.
pub fn script_run(script: &[u8], store: &mut [u8], output: &mut [u8]) -> usize
    ensures { ScriptRan script.now store.old output.old result
        store.new output.new }
{
    script_runner::run_script(script, store, output).unwrap_or(0)
}

// What is written reads back, over calls of the two functions, as a contract, so that it is proved with the code.
pub fn numbers_read_back()
    ensures { NumbersBack }
{}
