// Scripts: reading one command, judging a whole script, writing one command.
#![tactic(auto)]

ghost use Rattle.std.specs.Prelude.{◌≡◌};
ghost use Rattle.script_commands.specs.Scripts.{read_command};
ghost use Rattle.scripts.specs.Says.{number_of, reading_in, ScriptJudged, CommandWritten};
ghost use Rattle.scripts.specs.Back.{ReadBack};

use script_commands::Command;

// Why a script is refused, or a command is not written, with the paper's numbers.
#[derive(Clone, Copy, Debug, PartialEq, Eq)]
pub enum Refusal {
    // No command has this code.
    UnknownCode = 12,
    // The bytes run out before the command's operands do.
    CutShort = 13,
    // The first command is not sizes, or sizes come again.
    OutOfPlace = 14,
    // The bytes run out where a command is due, or follow the end.
    WrongEnd = 15,
    // The command does not fit where it is to be written.
    DoesNotFit = 16,
}

impl From<Refusal> for u8 {
    ghost from_gives = { λ refusal number. number ≡ number_of refusal };

    fn from(refusal: Refusal) -> u8 {
        refusal as u8
    }
}

// The first fault of a script, and the offset of its place.
#[derive(Clone, Copy, Debug, PartialEq, Eq)]
pub struct Fault {
    pub refusal: Refusal,
    pub offset: usize,
}

// One command from what is left of a script, and how many bytes it has; `first` says whether it is to be the script's
// first. At a command byte 12 comes before 14, and 14 before 13.
pub fn read(rest: &[u8], first: bool) -> Result<(Command, usize), Refusal>
    ensures { reading_in result ≡ read_command first rest.now }
{
    let (&code, operands) = rest.split_first().ok_or(Refusal::WrongEnd)?;
    let length = script_codes::command_length(code).ok_or(Refusal::UnknownCode)?;
    if script_codes::out_of_place(code, first) {
        return Err(Refusal::OutOfPlace);
    }
    if rest.len() < length {
        return Err(Refusal::CutShort);
    }
    Ok((script_codes::command_of(code, operands), length))
}

// A whole script, from command to command, before any slot runs.
pub fn judge(script: &[u8]) -> Result<(), Fault>
    ensures { ScriptJudged script.now result }
{
    let mut at = 0;
    let mut first = true;
    // Commands differ in length, so that no iterator of the library goes over them.
    loop {
        // Not `map_err` and `?`: the proof didn't close, since what a closure makes of the refusal isn't known behind it.
        match read(&script[at..], first) {
            Err(refusal) => {
                return Err(Fault {
                    refusal,
                    offset: at,
                });
            }
            Ok((command, length)) => {
                let next = at + length;
                if script_codes::is_end(command) {
                    if next < script.len() {
                        return Err(Fault {
                            refusal: Refusal::WrongEnd,
                            offset: next,
                        });
                    }
                    return Ok(());
                }
                at = next;
                first = false;
            }
        }
    }
}

// A command written at the start of the output, and how many bytes it has.
pub fn write(command: Command, output: &mut [u8]) -> Result<usize, Refusal>
    ensures { CommandWritten command output.old result output.new }
{
    let coded = script_codes::encode(command);
    let bytes = coded.as_slice();
    if output.len() < bytes.len() {
        return Err(Refusal::DoesNotFit);
    }
    output[..bytes.len()].copy_from_slice(bytes);
    Ok(bytes.len())
}

// What is written reads back, over calls of this crate, as a contract, so that it is proved with the code.
pub fn read_back_over_calls()
    ensures { ReadBack }
{}
