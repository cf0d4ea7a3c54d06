// The program: a module from standard input, the netlist or "refused N at P" to standard output.
#![tactic(auto)]

ghost use Rattle.std.specs.Prelude.{OnOk, IfSome};
ghost use Rattle.std.specs.Io.KnownBytes.{Appends};
ghost use Rattle.response.specs.Text.{program_text};

use buffers::read_full;
use response::respond;
use std::io;
use std::io::{Read, Write};
use tagged::bytes::front;
use tagged::limits::LONGEST_MODULE;
use translator::LARGEST_NETLIST;

// Answers the module that the input holds: writes the program's text for all that the input has, however long it is.
fn answer<R: Read, W: Write>(input: &mut R, output: &mut W) -> io::Result<()>
    ensures { OnOk result (IfSome (R.remaining input.old) (λ bytes.
        Appends (W.contents output.old) (W.contents output.new) (program_text bytes))) }
{
    // One byte more than the longest module, so that a longer input is seen to be one.
    let mut file = [0u8; LONGEST_MODULE + 1];
    let count = read_full(input, &mut file)?;
    let mut text = [0u8; LARGEST_NETLIST];
    let size = respond(&file[..count], &mut text);
    output.write_all(front(&text, size))
}

fn main(rt: HostRuntime) -> io::Result<()> {
    answer(&mut rt.stdin(), &mut rt.stdout())
}
