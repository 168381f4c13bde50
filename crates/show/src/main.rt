// Reads one message from standard input and prints what it says, or the verdict that refuses it.
#![tactic(auto)]

use std::io;
use tool_input::read_full;
use tool_report::Style;
use tool_text::Text;

// No message has more than 2,048 bytes, so of a longer input the first 65,536 are enough. The only error is
// that of reading or writing.
fn main(rt: HostRuntime) -> io::Result<()> {
    let mut input = [0u8; 65536];
    let n = read_full(&mut rt.stdin(), &mut input)?;
    let mut out = Text::new();
    tool_report::put_shown(Style::Lines, &input[..n], &mut out);
    out.push(b'\n');
    rt.write_all(out.as_bytes())
}
