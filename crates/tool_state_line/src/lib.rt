// The gateway's state as a line of text.
#![tactic(auto)]

ghost use Rattle.std.specs.Prelude.{◌≡◌, ◌+◌, ◌≤◌, ◌<◌, length};

use state_tables::{Gateway, Units};
use tool_text::{Text, first};

// ---- columns of digits

// The marks of a column, or the links' states, a digit for each.
fn put_marks(out: &mut Text, marks: &[u8])
    requires { length out.old + length marks.now ≤ 65536 }
    ensures { length out.new ≡ length out.old + length marks.now }
{
    for mark in marks {
        out.push(b'0' + mark % 10);
    }
}

// The first places of a column, after its name.
fn put_column(out: &mut Text, name: &[u8], marks: &[u8], n: u8)
    requires { (length out.old + 300 ≤ 65536) × (length name.now ≤ 20) }
    ensures { length out.new ≤ length out.old + 300 }
{
    out.push_bytes(name);
    put_marks(out, first(marks, usize::from(n)));
}

// ---- active pairs

// The active pairs, by ASP, then by AS.
fn put_pairs(out: &mut Text, active: &[u8; 256])
    requires { length out.old + 5632 ≤ 65536 }
    ensures { length out.new ≤ length out.old + 5632 }
{
    let start = out.len();
    for i in 0..256u32 {
        let p = i / 16;
        let a = i % 16;
        if active[(a * 16 + p) as usize] == 1 {
            out.push_comma(start);
            out.push_field(p, b':');
            out.push_number(a);
        }
    }
}

// ---- units held

// `A:TAG:LEN:ID:CORRELATION` for the unit at index i of the columns; `-` where it has no correlation id.
fn put_unit(out: &mut Text, u: &Units, i: usize)
    requires { (length out.old + 54 ≤ 65536) × (i < 128) }
    ensures { length out.new ≤ length out.old + 54 }
{
    out.push_field((i / 8) as u32, b':');
    out.push_field(u32::from(u.tag[i]), b':');
    out.push_field(u32::from(u.length[i]), b':');
    out.push_field(u.id[i], b':');
    if u.marked[i] == 1 {
        out.push_number(u.correlation[i]);
    } else {
        out.push(b'-');
    }
}

// The units held, ASes ascending, in each the oldest first: that at index i is of AS i / 8, and only the
// first places of an AS are in use.
// Kept: the C interface (include/m2ua.h) has these columns.
fn put_units(out: &mut Text, u: &Units)
    requires { length out.old + 7040 ≤ 65536 }
    ensures { length out.new ≤ length out.old + 7040 }
{
    let start = out.len();
    for i in 0..128 {
        if i % 8 < usize::from(u.count[i / 8]) {
            out.push_comma(start);
            put_unit(out, u, i);
        }
    }
}

// ---- the line

// `up=.. active=.. waiting=.. links=.. held=..`
pub fn put_state(out: &mut Text, g: &Gateway)
    requires { length out.old + 14000 ≤ 65536 }
    ensures { length out.new ≤ length out.old + 14000 }
{
    put_column(out, b"up=", &g.up, g.asps);
    out.push_bytes(b" active=");
    put_pairs(out, &g.active);
    put_column(out, b" waiting=", &g.waiting, g.ases);
    put_column(out, b" links=", &g.state, g.links);
    out.push_bytes(b" held=");
    put_units(out, &g.held);
}
