// Messages as text: the line of `read` and the lines of `show`.
#![tactic(auto)]

ghost use Rattle.std.specs.Prelude.{◌≡◌, ◌+◌, ◌*◌, ◌≤◌, ◌++◌, length};
ghost use Rattle.codec_wire.specs.Walk.{walk, part_of};
ghost use Rattle.tool_text.specs.Inner.Room.{Room, Within};
ghost use Rattle.tool_report.specs.Shown.{joint, two, value, fields, named, fields_in, par_text, pars_text, head_line, verdict_line, accepted_text, read_text, shown_text};
ghost use Rattle.tool_report.specs.Inner.Shown.{par};

use codec_read::Reading;
use codec_wire::Step;
use tool_text::Text;

// How parameters are written: by `read`, by `show` in one line, by `show` in lines of its own.
#[derive(Clone, Copy)]
pub enum Style {
    Plain,
    Bars,
    Lines,
}

// What stands before a parameter, and before the verdict.
#[tactic(auto, using(std::proofs::Common::append_assoc), unfolding(crate::specs::Shown::joint))]
fn put_joint(style: Style, out: &mut Text)
    requires { length out.old + 3 ≤ 65536 }
    ensures text { out.new ≡ out.old ++ joint style }
    ensures upper_bound { length out.new ≤ length out.old + 3 }
{
    match style {
        Style::Plain => out.push(b' '),
        Style::Bars => out.push_bytes(b" | "),
        Style::Lines => out.push(b'\n'),
    }
}

// Two numbers with a character between them.
#[tactic(auto, using(std::proofs::Common::append_assoc), unfolding(crate::specs::Shown::two))]
fn put_two(a: u32, c: u8, b: u32, out: &mut Text)
    requires { length out.old + 21 ≤ 65536 }
    ensures text { out.new ≡ out.old ++ two a c b }
    ensures upper_bound { length out.new ≤ length out.old + 21 }
{
    out.push_number(a);
    out.push(c);
    out.push_number(b);
}

// The length field of a parameter with a value.
fn field_of(v: &[u8]) -> u32
    requires { length v.now ≤ 65536 }
    ensures { result ≡ 4 + length v.now }
{
    4 + v.len() as u32
}

// A parameter as `read` writes it: tag, length and value.
#[tactic(auto, using(std::proofs::Common::append_assoc), unfolding(crate::specs::Shown::fields))]
fn put_fields(tag: u16, v: &[u8], out: &mut Text)
    requires { length out.old + 22 + 2 * length v.now ≤ 65536 }
    ensures { out.new ≡ out.old ++ fields tag v.now }
{
    put_two(u32::from(tag), b':', field_of(v), out);
    out.push(b':');
    out.push_hex(v);
}

// A parameter as `show` writes it.
#[tactic(auto, using(std::proofs::Common::append_assoc), unfolding(crate::specs::Shown::named))]
fn put_named(tag: u16, v: &[u8], out: &mut Text)
    requires { length out.old + 28 + 2 * length v.now ≤ 65536 }
    ensures { out.new ≡ out.old ++ named tag v.now }
{
    out.push_bytes(b"param ");
    put_two(u32::from(tag), b' ', field_of(v), out);
    put_value(v, out);
}

// The value as `show` writes it: nothing where it is empty.
#[tactic(auto, using(std::proofs::Common::append_assoc), unfolding(crate::specs::Shown::value))]
fn put_value(v: &[u8], out: &mut Text)
    requires { length out.old + 1 + 2 * length v.now ≤ 65536 }
    ensures { out.new ≡ out.old ++ value v.now }
{
    if v.is_empty() {
        return;
    }
    out.push(b' ');
    out.push_hex(v);
}

fn put_tagged(style: Style, tag: u16, v: &[u8], out: &mut Text)
    requires { length out.old + 28 + 2 * length v.now ≤ 65536 }
    ensures { out.new ≡ out.old ++ fields_in style tag v.now }
{
    match style {
        Style::Plain => put_fields(tag, v, out),
        Style::Bars | Style::Lines => put_named(tag, v, out),
    }
}

// One parameter, with what stands before it.
#[tactic(auto, using(std::proofs::Common::append_assoc), unfolding(crate::specs::Shown::par_text))]
fn put_par(style: Style, tag: u16, v: &[u8], out: &mut Text)
    requires { length out.old + 31 + 2 * length v.now ≤ 65536 }
    ensures { out.new ≡ out.old ++ par_text style (par tag v.now) }
{
    put_joint(style, out);
    put_tagged(style, tag, v, out);
}

// The parameters of a message.
fn put_pars(style: Style, s: &[u8], out: &mut Text)
    requires { length out.old + 8 * length s.now + 31 ≤ 65536 }
    ensures text { out.new ≡ out.old ++ pars_text style (walk s.now 8).pars }
    ensures upper_bound { length out.new ≤ length out.old + 8 * length s.now }
{
    let mut at = 8;
    while let Step::Param { tag, len, next } = codec_wire::reading_at(s, at) {
        let v = codec_wire::value_at(s, at, usize::from(len));
        put_par(style, tag, v, out);
        at = next;
    }
}

#[tactic(auto, using(std::proofs::Common::append_assoc), unfolding(crate::specs::Shown::verdict_line))]
fn put_verdict(code: u32, out: &mut Text)
    requires { length out.old + 18 ≤ 65536 }
    ensures text { out.new ≡ out.old ++ verdict_line code }
    ensures upper_bound { length out.new ≤ length out.old + 18 }
{
    out.push_bytes(b"verdict ");
    out.push_number(code);
}

// The first line of a message that reads: class, type and bytes.
#[tactic(auto, using(std::proofs::Common::append_assoc), unfolding(crate::specs::Shown::head_line))]
fn put_head(class: u32, msgtype: u32, size: u32, out: &mut Text)
    requires { length out.old + 40 ≤ 65536 }
    ensures text { out.new ≡ out.old ++ head_line class msgtype size }
    ensures upper_bound { length out.new ≤ length out.old + 40 }
{
    out.push_bytes(b"message ");
    put_two(class, b' ', msgtype, out);
    out.push(b' ');
    out.push_number(size);
}

// The lines of a message that reads.
#[tactic(auto, using(std::proofs::Common::append_assoc), unfolding(crate::specs::Shown::accepted_text))]
fn put_accepted(style: Style, r: Reading, s: &[u8], out: &mut Text)
    requires { Room out.old × (length s.now ≤ 2048) }
    ensures text { out.new ≡ out.old ++ accepted_text style r.class r.msgtype s.now }
    ensures upper_bound { Within out.old out.new }
{
    put_head(r.class, r.msgtype, s.len() as u32, out);
    put_pars(style, s, out);
    put_joint(style, out);
    put_verdict(0, out);
}

// What `show` says of any bytes.
#[tactic(auto, using(std::proofs::Common::append_assoc), unfolding(crate::specs::Shown::shown_text))]
pub fn put_shown(style: Style, s: &[u8], out: &mut Text)
    requires { length out.old + 17000 ≤ 65536 }
    ensures text { out.new ≡ out.old ++ shown_text style s.now }
    ensures upper_bound { length out.new ≤ length out.old + 17000 }
{
    let r = codec_read::read(s);
    if r.code == 0 {
        put_accepted(style, r, s, out);
    } else {
        put_verdict(r.code, out);
    }
}

// What `read` says of any bytes.
#[tactic(auto, using(std::proofs::Common::append_assoc), unfolding(crate::specs::Shown::read_text))]
pub fn put_read(s: &[u8], out: &mut Text)
    requires { length out.old + 17000 ≤ 65536 }
    ensures text { out.new ≡ out.old ++ read_text s.now }
    ensures upper_bound { length out.new ≤ length out.old + 17000 }
{
    let r = codec_read::read(s);
    out.push_number(r.code);
    if r.code == 0 {
        put_pars(Style::Plain, s, out);
    }
}
