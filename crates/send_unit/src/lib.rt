// An action of an event, and what its message is made of: itself, the message that it passes on, or the unit
// that it sends (Rules 8.14 and 8.18).
#![tactic(auto)]

ghost use Rattle.std.specs.Prelude.{◌≡◌, true, cond, ◌+◌, ◌-◌, ◌<◌, ◌≤◌, length, take, drop};
ghost use Rattle.std.specs.Bool.{then_some};
ghost use Rattle.laws.specs.Columns.{number_at};
ghost use Rattle.codec_select.specs.Inner.Picks.{PutBytes};
ghost use Rattle.rules_event.specs.Sent.{is_data};
ghost use Rattle.send_unit.specs.Inner.Words.{action_in, data_in};
ghost use Rattle.send_unit.specs.Inner.Units.{gone_row, gone_list};
ghost use Rattle.send_unit.specs.Inner.Made.{held_of, lies_at, sent_in, LiesIn, shown_of};

use rules_action::{Action, USER_DATA};
use send_message::Unit;

const LINK_SIDE: u32 = 255;

// The bytes that the hold has for a unit (Rule 5.22).
const PLACE: usize = 273;

// The action at a place of a list of words, which do not have the unit that it sends.
pub fn action_at(words: &[u32; 1544], n: usize) -> Action
    requires { n < 386 }
    ensures { result ≡ action_in words.now n }
{
    let at = n * 4;
    Action {
        to: words[at],
        classtype: words[at + 1],
        subject: words[at + 2],
        value: words[at + 3],
        unit: 0,
    }
}

// ---- the unit that an action sends

// Data to an ASP.
pub fn is_data(o: Action) -> bool
    ensures { result ≡ is_data o }
{
    (o.classtype == USER_DATA) & (o.to != LINK_SIDE)
}

// How many of the first n actions are that.
pub fn data_before(words: &[u32; 1544], n: usize) -> usize
    requires { n ≤ 386 }
    ensures { result ≡ data_in words.now n }
{
    let mut d: usize = 0;
    for m in 0..n {
        d += usize::from(is_data(action_at(words, m)));
    }
    d
}

// Those of the units that AS a has let go, which had so many before and has so many after.
fn add_row(list: &mut [u8], n: usize, a: usize, before: u8, after: u8) -> usize
    requires { (a < 16) × (n + 8 ≤ length list.old) }
    ensures { PutBytes list.old n (gone_row before after a) result list.new }
{
    if before == 0 {
        return n;
    }
    if after != 0 {
        return n;
    }
    let mut at = n;
    for k in 0..8usize {
        if k < usize::from(before) {
            list[at] = (a * 8 + k) as u8;
            at += 1;
        }
    }
    at
}

// Those of all ASes, in the sequence in which the units go out; zeros behind them.
pub fn gone<'a>(before: &'a [u8; 16], after: &'a [u8; 16]) -> [u8; 128]
    ensures { result ≡ gone_list before.now after.now }
{
    let mut list = [0u8; 128];
    let mut n: usize = 0;
    for a in 0..16usize {
        n = add_row(&mut list, n, a, before[a], after[a]);
    }
    list
}

// The index at a place of that list; beyond it 0.
pub fn index_at(list: &[u8], d: usize) -> usize
    ensures { result ≡ number_at list.now d }
{
    list.get(d).map_or(0, |i| usize::from(*i))
}

// The index of the unit that the action at place n sends, where it sends one.
pub fn unit_for<'a>(
    held: bool,
    words: &[u32; 1544],
    n: usize,
    before: &'a [u8; 16],
    after: &'a [u8; 16],
) -> Option<usize>
    requires { n ≤ 386 }
    ensures { result ≡ then_some held (number_at (gone_list before.now after.now) (data_in words.now n)) }
{
    if held {
        let list = gone(before, after);
        return Some(index_at(&list, data_before(words, n)));
    }
    None
}

// Where the bytes of a unit lie in the hold.
#[derive(Clone, Copy)]
pub struct Extent {
    pub from: usize,
    pub to: usize,
}

// An action, and what its message is made of: whether it passes the received message on; and where the bytes
// of the unit lie that it sends, where it sends one, and the unit.
#[derive(Clone, Copy)]
pub struct Sent {
    pub o: Action,
    pub passed: bool,
    pub held: Option<Extent>,
    pub unit: Unit,
}

// The units that are held, as columns: how many of each AS, and what messages are made of.
#[derive(Clone, Copy)]
pub struct Columns<'a> {
    pub counts: &'a [u8; 16],
    pub tags: &'a [u16; 128],
    pub lengths: &'a [u16; 128],
    pub marks: &'a [u16; 128],
    pub correlations: &'a [u32; 128],
}

// Where the unit at index i lies, whose parameter has so many bytes.
fn lies_at(i: usize, len: u16) -> Extent
    requires { (i < 128) × (4 ≤ len) }
    ensures { result ≡ lies_at i len }
{
    let from = i * PLACE;
    Extent {
        from,
        to: from + usize::from(len) - 4,
    }
}

// An action with all that; i is the index of the unit that it sends, if it sends one.
pub fn sent_at<'a>(o: Action, passed: bool, i: usize, units: Columns<'a>) -> Sent
    requires { (i < 128) × (held_of passed o ≡ true → 4 ≤ number_at units.lengths.now i) }
    ensures { result ≡ sent_in units.entry passed i o }
{
    let held = if is_data(o) & !passed {
        Some(lies_at(i, units.lengths[i]))
    } else {
        None
    };
    Sent {
        o,
        passed,
        held,
        unit: Unit {
            tag: units.tags[i],
            correlation: (units.marks[i] == 1).then_some(units.correlations[i]),
        },
    }
}

// A part of the hold where a unit was held, else of the received message.
// Kept: a form of docs/DECISIONS.md, promised of any part of either; shown below takes the option.
pub fn body<'a>(msg: &'a [u8], hold: &'a [u8], held: bool, from: usize, to: usize) -> &'a [u8]
    requires { (from ≤ to) × (to ≤ length (cond held hold.now msg.now)) }
    ensures { result.now ≡ cond held (take (to - from) (drop from hold.now)) (take (to - from) (drop from msg.now)) }
{
    if held {
        return &hold[from..to];
    }
    &msg[from..to]
}

// The data that an action's message shows: the unit's where it was held, else the empty part of the received
// message.
pub fn shown<'a>(msg: &'a [u8], hold: &'a [u8], held: Option<Extent>) -> &'a [u8]
    requires { LiesIn hold.now held }
    ensures { result.now ≡ shown_of hold.now held }
{
    match held {
        Some(lies) => body(msg, hold, true, lies.from, lies.to),
        None => body(msg, hold, false, 0, 0),
    }
}
