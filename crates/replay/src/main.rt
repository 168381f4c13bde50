// Reads scripts from standard input and writes the answers.
#![tactic(auto)]

ghost use Rattle.std.specs.Prelude.{◌≤◌, length};

use std::io;
use tool_input::read_full;
use tool_session::Session;
use tool_text::Text;

// What goes from part to part of the input: the start of a line whose end is still to come, the answers that
// are still to be written, with room for one more, and what goes from line to line.
#[derive(Drop)]
struct Replay {
    line: Text,
    out: Text,
    session: Session,
    ghost room: { length out ≤ 40000 },
}

// Writes the answers when they nearly fill their buffer. The only error, here and in what calls it, is that
// of reading or writing: it ends the program.
fn flush(rt: &impl Print, out: &mut Text) -> io::Result<()>
    ensures { length out.new ≤ 40000 }
{
    if out.len() <= 40000 {
        return Ok(());
    }
    let written = rt.write_all(out.as_bytes());
    out.clear();
    written
}

impl Replay {
    fn new() -> Self {
        Replay {
            line: Text::new(),
            out: Text::new(),
            session: Session::new(),
        }
    }

    // The end of a line: it is answered.
    fn end_line(&mut self, rt: &impl Print) -> io::Result<()> {
        self.session.run(self.line.as_bytes(), &mut self.out);
        self.line.clear();
        flush(rt, &mut self.out)
    }

    // A block of the input: the lines that end in it are answered, and what follows the last of them is held.
    fn take_block(&mut self, rt: &impl Print, block: &[u8]) -> io::Result<()> {
        for part in block.split_inclusive(|b| *b == b'\n') {
            match part.strip_suffix(b"\n") {
                Some(end) => {
                    self.line.push_fitting(end);
                    self.end_line(rt)?;
                }
                None => self.line.push_fitting(part),
            }
        }
        Ok(())
    }

    // The end of the input, which its last line may lack.
    fn finish(&mut self, rt: &impl Print) -> io::Result<()> {
        self.end_line(rt)?;
        rt.write_all(self.out.as_bytes())
    }

    // The blocks of the input. Nothing says that the input ends, so the loop has a last block, behind any
    // that an input has.
    // Kept: no heap, so blocks in fixed memory and not std's lines.
    fn take_input(&mut self, rt: &(impl Input + Print)) -> io::Result<()> {
        let mut input = rt.reader();
        let mut block = [0u8; 65536];
        for _ in 0..0x1000000000000u64 {
            match read_full(&mut input, &mut block) {
                Ok(0) => break,
                Ok(n) => self.take_block(rt, &block[..n])?,
                Err(e) => {
                    // as at the end of the input: what was read is answered, then the error ends it
                    self.finish(rt)?;
                    return Err(e);
                }
            }
        }
        self.finish(rt)
    }
}

fn main(rt: HostRuntime) -> io::Result<()> {
    Replay::new().take_input(&rt)
}
