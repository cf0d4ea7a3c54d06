// Filling a buffer from a reader, as both programs do.
#![tactic(auto)]

ghost use Rattle.std.specs.Prelude.{◌≡◌, ◌≤◌, length, take, IfOk, IfSome};

use std::io;
use std::io::Read;

// Reads until the buffer is full or the input ends; how many bytes it put at the front. The first read that fails is the error, and leaves a
// buffer of the same length.
pub fn read_full<R: Read>(input: &mut R, buffer: &mut [u8]) -> io::Result<usize>
    ensures kept { length buffer.new ≡ length buffer.old }
    ensures within { IfOk result (λ count. count ≤ length buffer.new) }
    ensures bytes { IfOk result (λ count. IfSome (R.remaining input.old)
        (λ bytes. take count buffer.new ≡ take (length buffer.old) bytes)) }
{
    let mut count: usize = 0;
    while count < buffer.len() {
        let size = input.read(&mut buffer[count..])?;
        if size == 0 {
            return Ok(count);
        }
        count += size;
    }
    Ok(count)
}
