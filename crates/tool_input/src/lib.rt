// Input in blocks.
#![tactic(auto)]

ghost use Rattle.std.specs.Io.{ReadsAtMost};

use std::io::{Read, Result};

// Reads until the buffer is full or the input ends, and says how many bytes stand at its start. The only
// error is the reader's: of the buffer nothing is said then.
// Kept: std's read_exact doesn't say how many bytes came before the input ended.
pub fn read_full<R: Read>(from: &mut R, buf: &mut [u8]) -> Result<usize>
    ensures { ReadsAtMost result buf.new }
{
    let mut at = 0;
    while at < buf.len() {
        match from.read(&mut buf[at..]) {
            Ok(0) => return Ok(at),
            Ok(n) => at += n,
            Err(e) if at == 0 => return Err(e),
            Err(_) => return Ok(at),
        }
    }
    Ok(at)
}
