// Scripts: one line in, its answer out, put behind the text so far.
//
// A further command is a case of `Command`, a line of `command_of` and an arm of `put_said`.
#![tactic(auto)]

ghost use Rattle.std.specs.Prelude.{◌≡◌, ◌++◌, ◌+◌, ◌≤◌, length};
ghost use Rattle.tool_text.specs.Inner.Room.{Room, Within};
ghost use Rattle.tool_script.specs.Script.{command_in, said_by, on_bytes, answer_text, line_text};

use tool_report::{Style, put_read, put_shown};
use tool_text::{Text, bytes_of, first, is, rest_of, word_of};

// What is asked about the bytes of a message.
#[derive(Clone, Copy)]
pub enum Command {
    Read,
    Show,
}

#[tactic(auto, using(std::proofs::Common::append_assoc), unfolding(crate::specs::Script::command_in))]
fn command_of(name: &[u8]) -> Option<Command>
    ensures { result ≡ command_in name.now }
{
    if is(name, b"read") {
        return Some(Command::Read);
    }
    if is(name, b"show") {
        return Some(Command::Show);
    }
    None
}

// What a command says of bytes.
fn put_said(command: Command, s: &[u8], out: &mut Text)
    requires { Room out.old }
    ensures text { out.new ≡ out.old ++ said_by command s.now }
    ensures upper_bound { Within out.old out.new }
{
    match command {
        Command::Read => put_read(s, out),
        Command::Show => put_shown(Style::Bars, s, out),
    }
}

// The answer of a command to the word that follows its name: `?` where this is none of bytes.
#[tactic(auto, using(std::proofs::Common::append_assoc), unfolding(crate::specs::Script::on_bytes))]
fn answer(command: Command, hex: &[u8], bytes: &mut [u8; 32768], out: &mut Text)
    requires { Room out.old × (length hex.now ≤ 65535) }
    ensures text { out.new ≡ out.old ++ on_bytes (said_by command) hex.now }
    ensures upper_bound { Within out.old out.new }
{
    match bytes_of(hex, bytes) {
        Some(n) => put_said(command, first(bytes, n), out),
        None => out.push(b'?'),
    }
}

// The answer to a line, without its end: `?` where it is no command.
#[tactic(auto, using(std::proofs::Common::append_assoc), unfolding(crate::specs::Script::answer_text))]
fn answer_line(line: &[u8], bytes: &mut [u8; 32768], out: &mut Text)
    requires { Room out.old }
    ensures text { out.new ≡ out.old ++ answer_text line.now }
    ensures upper_bound { Within out.old out.new }
{
    if line.len() > 65535 {
        return out.push(b'?');
    }
    match command_of(word_of(line)) {
        Some(command) => answer(command, rest_of(line), bytes, out),
        None => out.push(b'?'),
    }
}

// A line of a script: a blank line or a comment has no answer, and any other one line of it.
#[tactic(auto, using(std::proofs::Common::append_assoc), unfolding(crate::specs::Script::line_text))]
pub fn run(line: &[u8], bytes: &mut [u8; 32768], out: &mut Text)
    requires { length out.old + 17001 ≤ 65536 }
    ensures text { out.new ≡ out.old ++ line_text line.now }
    ensures upper_bound { length out.new ≤ length out.old + 17001 }
{
    if line.is_empty() {
        return;
    }
    if line[0] == b'#' {
        return;
    }
    answer_line(line, bytes, out);
    out.push(b'\n');
}
