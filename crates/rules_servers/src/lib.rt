// An event in the ASes that it names: one loop that cuts each record out, changes it, writes the units and
// Notifies that go out, and puts it back.
#![tactic(auto)]

ghost use Rattle.std.specs.Prelude.{◌≡◌, true, ◌+◌, ◌*◌, ◌<◌, ◌≤◌, length};
ghost use Rattle.laws.specs.Columns.{number_at};
ghost use Rattle.rules_server.specs.Record.{record_from};
ghost use Rattle.rules_server.specs.Inner.Change.{fits};
ghost use Rattle.rules_servers.specs.Changed.{with_flag, up_after, column_of};
ghost use Rattle.rules_servers.specs.Inner.Run.{Stepped, Ran};

use rules_server::{Change, Moved};

// The ASes of ASP p, or those in which it is active.
pub fn column_of(column: &[u8; 256], p: usize) -> [bool; 16]
    requires { p < 16 }
    ensures { result ≡ column_of column.now p }
{
    let mut r = [false; 16];
    for a in 0..16usize {
        r[a] = column[a * 16 + p] == 1;
    }
    r
}

// The column gets x at place p.
fn put_flag(column: &mut [u8; 16], p: usize, x: u8)
    ensures { column.new ≡ with_flag column.old p x }
{
    if p < 16 {
        column[p] = x;
    }
}

// Who is up after the change.
pub fn mark(up: &mut [u8; 16], k: Change)
    ensures { up.new ≡ up_after k up.old }
{
    match k {
        Change::AspUp(p) => put_flag(up, p, 1),
        Change::AspDown(p) => put_flag(up, p, 0),
        Change::Deactivate(_) => {}
        Change::Activate(_) => {}
        Change::Recover => {}
    }
}

// The columns that the loop over the ASes reads, as they are lent.
#[derive(Clone, Copy)]
pub struct Lent<'a> {
    pub up: &'a [u8; 16],
    pub member: &'a [u8; 256],
    pub mode: &'a [u8; 16],
    pub count: &'a [u8; 16],
    pub id: &'a [u32; 128],
}

// What the event does in AS a.
fn step<'a>(
    lent: Lent<'a>,
    active: &mut [u8; 256],
    waiting: &mut [u8; 16],
    k: Moved,
    named: bool,
    a: usize,
    words: &mut [u32],
    n: usize,
) -> usize
    requires { (a < 16) × (n * 4 + 96 ≤ length words.old) }
    ensures { Stepped k.change named a (record_from lent.entry.up.now lent.entry.member.now active.old waiting.old lent.entry.mode.now a) (number_at lent.entry.count.now a) lent.entry.id.now active.old waiting.old words.old n active.new waiting.new words.new result }
{
    if !named {
        return n;
    }
    let s = rules_server::record_of(lent.up, lent.member, active, waiting, lent.mode, a);
    let t = rules_server::changed(s, k);
    let lost = rules_server::overtaken_in(s, k);
    let acts = t.acts;
    rules_server::put_row(active, a, acts);
    waiting[a] = u8::from(t.waiting);
    let m = rules_server::let_out(k, lent.count, lent.id, a, words, n);
    rules_server::speak(lost, s, t, a, words, m)
}

// The same in every AS that the event names, from place n of the list on; and the next place.
// Kept: the C interface (include/m2ua.h) has these columns, and crate event_run lends them one by one.
pub fn run<'a>(
    up: &'a [u8; 16],
    member: &'a [u8; 256],
    mode: &'a [u8; 16],
    count: &'a [u8; 16],
    id: &'a [u32; 128],
    active: &mut [u8; 256],
    waiting: &mut [u8; 16],
    k: Change,
    named: [bool; 16],
    words: &mut [u32],
    n: usize,
) -> usize
    requires { (n * 4 + 1536 ≤ length words.old) × (fits k ≡ true) }
    ensures { Ran k named (record_from up.now member.now active.old waiting.old mode.now) count.now id.now active.old waiting.old words.old n active.new waiting.new words.new result }
{
    let lent = Lent {
        up,
        member,
        mode,
        count,
        id,
    };
    let moved = Moved::by(k);
    let mut m = n;
    for a in 0..16usize {
        m = step(lent, active, waiting, moved, named[a], a, words, m);
    }
    m
}
