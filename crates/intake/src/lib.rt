#![tactic(auto)]

ghost use Rattle.std.specs.Prelude.{◌≤◌, length, IfOk};

use std::io;
use std::io::Read;

/// How many bytes of standard input a program reads at most. No chart text is longer than
/// 20,888 bytes; a longer input shows its first fault within this many.
pub const MOST_BYTES: usize = 32768;

/// Fills the front of the buffer from standard input, until the input ends or
/// the buffer is full, and answers how many bytes came.
pub fn fill(rt: &HostRuntime, buffer: &mut [u8]) -> io::Result<usize>
    ensures { IfOk result (λ n. n ≤ length buffer.old) }
{
    let mut input = rt.stdin();
    let mut filled = 0;
    for _ in 0..buffer.len() {
        let came = input.read(&mut buffer[filled..])?;
        if came == 0 {
            break;
        }
        filled += came;
    }
    Ok(filled)
}
