// Scripts for C: judging one, reading and writing a command, running one, as crates/c_scripts has them.
ghost use Rattle.std.specs.Prelude.{◌≡◌};
ghost use Rattle.script_commands.specs.Scripts.{read_command, judge};
ghost use Rattle.script_text.specs.Run.{output_bound};
ghost use Rattle.c_scripts.specs.Says.{fault_of, is_first, reading_of, NumbersWritten, ScriptRan};

use c_scripts::{Fault, Numbers, NumbersPut, NumbersRead};

// A whole script, before any slot runs.
#[unsafe(no_mangle)]
pub extern "C" fn gel_script_judge(script: &[u8]) -> Fault
    ensures { result ≡ fault_of (judge script.now) }
{
    c_scripts::script_judge(script)
}

// The command at the front of what is left of a script; `first` is 0 where it is not to be the script's first.
#[unsafe(no_mangle)]
pub extern "C" fn gel_script_read(rest: &[u8], first: u8) -> NumbersRead
    ensures { result ≡ reading_of (read_command (is_first first) rest.now) }
{
    c_scripts::script_read(rest, first)
}

// A command at the front of the output.
#[unsafe(no_mangle)]
pub extern "C" fn gel_script_write(command: Numbers, output: &mut [u8]) -> NumbersPut
    ensures { NumbersWritten command output.old result output.new }
{
    c_scripts::script_write(command, output)
}

// How much output `gel_script_run` asks for a script of so many bytes, whatever they are.
#[unsafe(no_mangle)]
pub extern "C" fn gel_script_output(script_bytes: usize) -> usize
    ensures { result ≡ output_bound script_bytes }
{
    c_scripts::script_output(script_bytes)
}

// A script run on a store: how many bytes it printed, or 0 where the output is shorter than that.
#[unsafe(no_mangle)]
pub extern "C" fn gel_script_run(script: &[u8], store: &mut [u8], output: &mut [u8]) -> usize
    ensures { ScriptRan script.now store.old output.old result
        store.new output.new }
{
    c_scripts::script_run(script, store, output)
}
