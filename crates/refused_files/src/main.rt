// Every file of examples/refused, whose copies stand in data/, handed to the proved calls; a line each, held to `stdout`.
#![tactic(auto)]

use buffers::read_full;
use std::rt::Files;
use std::{fs, io};
use tagged::answers::Refusal;
use tagged::bytes::front;
use tagged::limits::LONGEST_NETLIST;
use translator::{LARGEST_NETLIST, translate};

// Puts a file into a buffer, which is longer than every file of data/; how many bytes it has.
fn load(rt: &impl Files, name: &str, buffer: &mut [u8]) -> io::Result<usize> {
    let mut file = fs::open(rt, name)?;
    read_full(&mut file, buffer)
}

// Hands a file to a call, and writes what it answers: a refusal, or that it was done.
fn shown<F: FnOnce(&[u8]) -> Result<(), Refusal>>(
    rt: &(impl Files + Print),
    name: &str,
    done: &str,
    call: F,
) -> io::Result<()>
    requires { F.IsAlwaysCallable call }
{
    let mut buffer = [0u8; LONGEST_NETLIST + 1];
    let size = load(rt, name, &mut buffer)?;
    match call(front(&buffer, size)) {
        Ok(()) => println!(rt; "{name}: {done}"),
        Err(refusal) => println!(rt; "{name}: {refusal}"),
    }
}

// A module is checked.
fn module(rt: &(impl Files + Print), name: &str) -> io::Result<()> {
    shown(rt, name, "accepted", |file| verilog_check::check(file))
}

// A netlist is read.
fn netlist(rt: &(impl Files + Print), name: &str) -> io::Result<()> {
    shown(rt, name, "accepted", |file| netlist::read(file))
}

// A module is translated into a buffer that is never too short.
fn translated(rt: &(impl Files + Print), name: &str) -> io::Result<()> {
    let mut out = [0u8; LARGEST_NETLIST];
    shown(
        rt,
        name,
        "translated",
        |file| translate(file, &mut out).map(|_| ()),
    )
}

// A module is translated into a buffer of no bytes.
fn without_room(rt: &(impl Files + Print), name: &str) -> io::Result<()> {
    let mut out = [0u8; 0];
    shown(
        rt,
        name,
        "translated",
        |file| translate(file, &mut out).map(|_| ()),
    )
}

// A module of one variable is run from a row of three bytes.
fn from_short_row(rt: &(impl Files + Print), name: &str) -> io::Result<()> {
    let row = [0u8; 3];
    let mut next = [0u8; 4];
    shown(
        rt,
        name,
        "accepted",
        |file| verilog_run::run(file, &row, &mut next),
    )
}

fn main(rt: HostRuntime) -> io::Result<()> {
    module(&rt, "01-too-short.bin")?;
    module(&rt, "01-wrong-length.bin")?;
    module(&rt, "02-if-without-else.bin")?;
    module(&rt, "02-late-declaration.bin")?;
    netlist(&rt, "02-operand-kind.bin")?;
    module(&rt, "02-too-deep.bin")?;
    netlist(&rt, "03-constant-in-netlist.bin")?;
    module(&rt, "03-value-too-big.bin")?;
    module(&rt, "03-width-33.bin")?;
    module(&rt, "04-digit-first.bin")?;
    module(&rt, "04-same-name.bin")?;
    module(&rt, "05-nine-processes.bin")?;
    module(&rt, "06-input-assigned.bin")?;
    module(&rt, "06-missing-variable.bin")?;
    netlist(&rt, "06-no-drive.bin")?;
    netlist(&rt, "06-own-cell.bin")?;
    module(&rt, "07-condition.bin")?;
    netlist(&rt, "07-drive.bin")?;
    module(&rt, "07-operands.bin")?;
    module(&rt, "08-chosen-bit.bin")?;
    module(&rt, "08-fixed-bit.bin")?;
    module(&rt, "09-both-kinds.bin")?;
    module(&rt, "10-two-processes.bin")?;
    module(&rt, "11-read-elsewhere.bin")?;
    translated(&rt, "12-too-many-cells.bin")?;
    without_room(&rt, "13-short-buffer.bin")?;
    from_short_row(&rt, "14-short-row.bin")
}
