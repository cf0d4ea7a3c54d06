// What the program writes, on slices: a netlist, or the text of a refusal.
#![tactic(auto)]

ghost use Rattle.std.specs.Prelude.{◌≡◌, ◌+◌, ◌^◌, ◌≤◌, length};
ghost use Rattle.tagged.specs.Answers.{number_of, Promise};
ghost use Rattle.tagged.specs.Bytes.{Wrote};
ghost use Rattle.translate.specs.Answer.{largest_netlist};
ghost use Rattle.response.specs.Text.{decimal_by, refusal_text, program_text, program_buffer};

use tagged::answers::Refusal;
use tagged::bytes::{put_byte, put_part};
use translator::translate;

// Writes a number in decimal, of at most so many digits; the index past it.
fn put_decimal(out: &mut [u8], at: usize, number: u64, digits: usize) -> usize
    requires { at + digits ≤ 2 ^ 40 }
    ensures { Wrote out.old at (decimal_by digits number) out.new result }
{
    if digits == 0 {
        return at;
    }
    if number < 10 {
        return put_byte(out, at, b'0' + number as u8);
    }
    let past = put_decimal(out, at, number / 10, digits - 1);
    put_byte(out, past, b'0' + (number % 10) as u8)
}

// Writes the text of a refusal to the front of a buffer; the index past it.
pub fn put_refusal(out: &mut [u8], refusal: Refusal) -> usize
    ensures { Wrote out.old 0 (refusal_text (number_of refusal.rule) refusal.place) out.new result }
{
    let first = put_part(out, 0, b"refused ");
    let second = put_decimal(out, first, u64::from(refusal.rule.number()), 20);
    let third = put_part(out, second, b" at ");
    let fourth = put_decimal(out, third, refusal.place as u64, 20);
    put_byte(out, fourth, b'\n')
}

// Puts what the program writes for a file to the front of a buffer; how many bytes it has.
pub fn respond(file: &[u8], out: &mut [u8]) -> usize
    requires { length out.old ≡ largest_netlist }
    ensures { Promise (length (program_text file.now)) (program_buffer file.now out.old) result out.new }
{
    match translate(file, out) {
        Ok(written) => written.length,
        Err(refusal) => put_refusal(out, refusal),
    }
}
