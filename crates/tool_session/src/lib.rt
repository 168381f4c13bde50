// A script line by line: what goes from line to line, and the commands beside `read` and `show`.
//
// A further command is a case of `Command`, a line of `command_of`, an arm of `answer` and mostly a method of
// its own; its answer has at most 17,900 characters.
#![tactic(auto)]

ghost use Rattle.std.specs.Prelude.{◌≡◌, ◌+◌, ◌*◌, ◌≤◌, ◌<◌, length, IfSome};
ghost use Rattle.state_tables.specs.Sound.{zeros};

use state_tables::Gateway;
use tool_event_line::{event_of, is_event, put_outcome, put_reached};
use tool_text::{Text, bytes_of, first, is, number_of, rest_of, word_of};

mod hold;

use hold::Hold;

// What goes from line to line: the gateway's state and the hold; and the buffer for the bytes of a line. A
// copy goes on by itself.
#[derive(Clone, Copy)]
pub struct Session {
    gateway: Gateway,
    hold: Hold,
    bytes: [u8; 32768],
}

#[derive(Clone, Copy)]
enum Command {
    Plan,
    State,
    Write,
    Event,
    Reach,
    Bytes,
    Hold,
    Paint,
    Held,
}

// The command of a line. `state` has no words, so it is the line itself.
fn command_of(line: &[u8]) -> Option<Command> {
    match word_of(line) {
        b"plan" => Some(Command::Plan),
        b"write" => Some(Command::Write),
        b"reach" => Some(Command::Reach),
        b"bytes" => Some(Command::Bytes),
        b"hold" => Some(Command::Hold),
        b"paint" => Some(Command::Paint),
        b"held" => Some(Command::Held),
        _ if is(line, b"state") => Some(Command::State),
        _ if is_event(line) => Some(Command::Event),
        _ => None,
    }
}

impl Session {
    // The gateway is the one of zeros.
    pub fn new() -> Self
        ensures { result.gateway ≡ zeros }
    {
        Session {
            gateway: Gateway::zeros(),
            hold: Hold::new(),
            bytes: [0; 32768],
        }
    }

    // A line of a script: its answer, `?` where it is malformed, and the line's end.
    pub fn run(&mut self, line: &[u8], out: &mut Text)
        requires { length out.old + 18001 ≤ 65536 }
        ensures { length out.new ≤ length out.old + 18001 }
    {
        match command_of(line) {
            Some(command) if line.len() <= 65535 => {
                if self.answer(command, line, out).is_none() {
                    out.push(b'?');
                }
                out.push(b'\n');
            }
            _ => tool_script::run(line, &mut self.bytes, out),
        }
    }

    // The answer to a line of a command; none where it is malformed.
    fn answer(&mut self, command: Command, line: &[u8], out: &mut Text) -> Option<()>
        requires { (length out.old + 17900 ≤ 65536) × (length line.now ≤ 65535) }
        ensures { length out.new ≤ length out.old + 17900 }
    {
        let rest = rest_of(line);
        match command {
            Command::Plan => out.push_number(self.plan(rest)?),
            Command::State => tool_state_line::put_state(out, &self.gateway),
            Command::Write => tool_write_line::put_message(rest, &mut self.bytes, out),
            Command::Event => self.event(line, out)?,
            Command::Reach => put_reached(out, &self.reached(rest)?),
            Command::Bytes => self.action(rest, out)?,
            Command::Hold => {
                self.hold.lend(number_of(rest)?);
                out.push(b'0');
            }
            Command::Paint => {
                self.hold.paint(u8::try_from(number_of(rest)?).ok()?);
                out.push(b'0');
            }
            Command::Held => out.push_hex(self.held(rest)?),
        }
        Some(())
    }

    // `plan HEX`: the answer to a file; its gateway becomes the current one.
    fn plan(&mut self, hex: &[u8]) -> Option<u32>
        requires { length hex.now ≤ 65535 }
    {
        let n = bytes_of(hex, &mut self.bytes)?;
        let loaded = state_plan::load(first(&self.bytes, n));
        self.gateway = loaded.gateway;
        Some(loaded.code)
    }

    // `msg`, `lost`, `recovery`, `up`, `down`, `linkmsg`: what the event hands back; its gateway becomes the
    // current one.
    fn event(&mut self, line: &[u8], out: &mut Text) -> Option<()>
        requires { (length out.old + 17800 ≤ 65536) × (length line.now ≤ 65535) }
        ensures { length out.new ≤ length out.old + 17800 }
    {
        let e = event_of(line, &mut self.bytes)?;
        let mut list = [0u32; 2048];
        let next = tool_event_run::happen(e, self.hold.lent(), &mut list[..e.words], self.gateway);
        self.gateway = next.node.gateway;
        put_outcome(out, next.refusal, first(&list, 4 * next.count));
        Some(())
    }

    // `reach` with one of these lines: the ASes that the event reaches; the gateway stays as it is.
    fn reached(&mut self, line: &[u8]) -> Option<[bool; 16]>
        requires { length line.now ≤ 65535 }
    {
        let e = event_of(line, &mut self.bytes)?;
        Some(tool_event_run::reached_by(e, self.hold.lends(), self.gateway))
    }

    // `bytes PLACE BUFLEN` with one of these lines: the action of the event as bytes; the gateway stays as it
    // is.
    fn action(&mut self, rest: &[u8], out: &mut Text) -> Option<()>
        requires { (length out.old + 17000 ≤ 65536) × (length rest.now ≤ 65535) }
        ensures { length out.new ≤ length out.old + 17000 }
    {
        let place = number_of(word_of(rest))?;
        let after = rest_of(rest);
        let room = number_of(word_of(after))?;
        let e = event_of(rest_of(after), &mut self.bytes)?;
        let mut message = [0u8; 8192];
        let written = tool_event_run::written_by(
            e,
            self.hold.lent(),
            place,
            &mut message[..room.min(8192) as usize],
            self.gateway,
        );
        tool_write_line::put_written(written, &message, out);
        Some(())
    }

    // `held A K`: the bytes of place k of AS a.
    fn held(&self, rest: &[u8]) -> Option<&[u8]>
        ensures { IfSome result (λ s. length s.now ≡ 273) }
    {
        let a = number_of(word_of(rest))?;
        let k = number_of(rest_of(rest))?;
        if a > 15 || k > 7 {
            return None;
        }
        Some(self.hold.place(a as usize, k as usize))
    }
}
