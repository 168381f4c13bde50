// The event lines of a script: what they say, and the text of what an event answers.
#![tactic(auto)]

ghost use Rattle.std.specs.Prelude.{◌+◌, ◌≤◌, length, IfSome};

use tool_text::{Text, bytes_of, first, number_of, rest_of, word_of};

// `msg`, `lost`, `recovery`, `up`, `down`, `linkmsg`
// Kept: tool_event_run's believed definition `said` (docs/BELIEVED.md) speaks of it.
#[derive(Clone, Copy)]
pub enum EventKind {
    Message,
    Lost,
    Recovery,
    LinkUp,
    LinkDown,
    LinkMessage,
}

// What an event line says. The index is that of an ASP, an AS or a link place, and 0 for a message of the
// link side; so many words are lent to the event; the message is empty where there is none.
#[derive(Clone, Copy)]
pub struct Event<'a> {
    pub kind: EventKind,
    pub index: u32,
    pub words: usize,
    pub message: &'a [u8],
}

// ---- Reading

fn kind_of(name: &[u8]) -> Option<EventKind> {
    match name {
        b"msg" => Some(EventKind::Message),
        b"lost" => Some(EventKind::Lost),
        b"recovery" => Some(EventKind::Recovery),
        b"up" => Some(EventKind::LinkUp),
        b"down" => Some(EventKind::LinkDown),
        b"linkmsg" => Some(EventKind::LinkMessage),
        _ => None,
    }
}

// Whether a line begins as an event's.
pub fn is_event(line: &[u8]) -> bool {
    kind_of(word_of(line)).is_some()
}

// `LISTLEN`: the words that are lent to an event, at most 2,048.
fn words_of(word: &[u8]) -> Option<usize>
    ensures { IfSome result (λ n. n ≤ 2048) }
{
    Some(number_of(word)?.min(2048) as usize)
}

// `LISTLEN HEX`
fn listed<'a>(
    kind: EventKind,
    index: u32,
    rest: &[u8],
    bytes: &'a mut [u8; 32768],
) -> Option<Event<'a>>
    requires { length rest.now ≤ 65535 }
    ensures { IfSome result (λ e. e.words ≤ 2048) }
{
    let words = words_of(word_of(rest))?;
    let size = bytes_of(rest_of(rest), bytes)?;
    Some(Event {
        kind,
        index,
        words,
        message: first(bytes, size),
    })
}

// One of the six event lines, its message in the first bytes of a buffer.
pub fn event_of<'a>(line: &[u8], bytes: &'a mut [u8; 32768]) -> Option<Event<'a>>
    requires { length line.now ≤ 65535 }
    ensures { IfSome result (λ e. e.words ≤ 2048) }
{
    let kind = kind_of(word_of(line))?;
    let rest = rest_of(line);
    match kind {
        // `P LISTLEN HEX`
        EventKind::Message => {
            let index = number_of(word_of(rest))?;
            listed(kind, index, rest_of(rest), bytes)
        }
        // `LISTLEN HEX`
        EventKind::LinkMessage => listed(kind, 0, rest, bytes),
        // `INDEX LISTLEN`
        EventKind::Lost | EventKind::Recovery | EventKind::LinkUp | EventKind::LinkDown => {
            Some(Event {
                kind,
                index: number_of(word_of(rest))?,
                words: words_of(rest_of(rest))?,
                message: &[],
            })
        }
    }
}

// ---- Writing

// ` (a,c,s,v)`
fn put_action(out: &mut Text, action: &[u32; 4])
    requires { length out.old + 46 ≤ 65536 }
    ensures { length out.new ≤ length out.old + 46 }
{
    let [a, c, s, v] = *action;
    out.push_bytes(b" (");
    out.push_field(a, b',');
    out.push_field(c, b',');
    out.push_field(s, b',');
    out.push_field(v, b')');
}

fn put_actions(out: &mut Text, actions: &[[u32; 4]])
    requires { (length out.old + 17756 ≤ 65536) × (length actions.now ≤ 386) }
    ensures { length out.new ≤ length out.old + 17756 }
{
    for action in actions {
        put_action(out, action);
    }
}

// `N COUNT (a,c,s,v) ..`, four words for each action, or `R NUMBER`. No event has more than 386 orders
// (Rule 8.7).
// Kept: the C interface (include/m2ua.h) has a refusal as a number, 0 for none.
pub fn put_outcome(out: &mut Text, code: u32, words: &[u32])
    requires { (length out.old + 17800 ≤ 65536) × (length words.now ≤ 1544) }
    ensures { length out.new ≤ length out.old + 17800 }
{
    if code != 0 {
        out.push_bytes(b"R ");
        out.push_number(code);
        return;
    }
    let (actions, _) = words.as_chunks::<4>();
    out.push_bytes(b"N ");
    out.push_number(actions.len() as u32);
    put_actions(out, actions);
}

// The ASes reached, joined by commas; `-` if none.
pub fn put_reached(out: &mut Text, reached: &[bool; 16])
    requires { length out.old + 176 ≤ 65536 }
    ensures { length out.new ≤ length out.old + 176 }
{
    let start = out.len();
    for a in 0..16u32 {
        if reached[a as usize] {
            out.push_comma(start);
            out.push_number(a);
        }
    }
    if out.len() == start {
        out.push(b'-');
    }
}
