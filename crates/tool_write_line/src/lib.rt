// The script's command `write`: a list of tags and values from text, and the message as text.
#![tactic(auto)]

ghost use Rattle.std.specs.Prelude.{◌≡◌, ◌≤◌, IfSome, IfNone};
ghost use Rattle.tool_text.specs.Inner.Room.{Room, Within};

mod items;

use codec_write::Written;
use items::Items;
use tool_text::{Text, first, is, number_of, rest_of, word_of};

// A class or a type of over 8 bits is none that is listed, and neither is 255.
fn clamped(n: u32) -> u8 {
    u8::try_from(n).unwrap_or(255)
}

// A tag of over 16 bits is no row's tag, and neither is 65,535.
fn tag_of(n: u32) -> u16 {
    u16::try_from(n).unwrap_or(65535)
}

// `TAG:HEX,TAG:HEX,..`, or `-` for none.
fn take_list(list: &[u8], items: &mut Items) -> Option<()> {
    if is(list, b"-") {
        return Some(());
    }
    for item in list.split(|b| *b == b',') {
        items.take(item)?;
    }
    Some(())
}

// No more bytes than are lent.
pub fn lent(n: usize) -> usize
    ensures { result ≤ 8192 }
{
    n.min(8192)
}

// `0 HEX`, or the number alone.
pub fn put_written(w: Written, message: &[u8], out: &mut Text)
    requires { Room out.old }
    ensures { Within out.old out.new }
{
    out.push_number(w.code);
    if w.code == 0 {
        out.push(b' ');
        out.push_hex(first(message, lent(w.length)));
    }
}

// The message of a list, in as many bytes as are lent.
fn put_list(class: u8, msgtype: u8, room: usize, list: &Items, out: &mut Text)
    requires { Room out.old }
    ensures { Within out.old out.new }
{
    let mut message = [0u8; 8192];
    let w = codec_write::write(
        class,
        msgtype,
        list.tags(),
        list.lens(),
        list.values(),
        &mut message[..lent(room)],
    );
    put_written(w, &message, out);
}

// The answer to a line that is well-formed.
fn put_answer(rest: &[u8], values: &mut [u8; 32768], out: &mut Text) -> Option<()>
    requires { Room out.old }
    ensures some { IfSome result (λ _. Within out.old out.new) }
    ensures none { IfNone result (out.new ≡ out.old) }
{
    let class = number_of(word_of(rest))?;
    let rest = rest_of(rest);
    let msgtype = number_of(word_of(rest))?;
    let rest = rest_of(rest);
    let room = number_of(word_of(rest))?;
    let mut list = Items::new(values);
    take_list(rest_of(rest), &mut list)?;
    put_list(clamped(class), clamped(msgtype), room as usize, &list, out);
    Some(())
}

// `CLASS TYPE BUFLEN LIST`, what follows `write`: the answer, or `?`.
pub fn put_message(rest: &[u8], values: &mut [u8; 32768], out: &mut Text)
    requires { Room out.old }
    ensures { Within out.old out.new }
{
    if put_answer(rest, values, out).is_none() {
        out.push(b'?');
    }
}
