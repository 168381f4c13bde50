// The good identifiers that a message names (Rule 8.11), as flags by the places of their links: so each
// stands there once, and they ascend. And a message that names these alone.
#![tactic(auto)]

ghost use Rattle.std.specs.Prelude.{◌≡◌, false, true, cond, ◌&&◌, ◌+◌, ◌<◌, ◌≤◌, eqb, leb, ltb, length};
ghost use Rattle.laws.specs.Columns.{number_at};
ghost use Rattle.codec_wire.specs.Walk.{walk};
ghost use Rattle.state_lookup.specs.Inner.Links.{rank};
ghost use Rattle.state_sets.specs.Inner.Members.{members};
ghost use Rattle.state_ranges.specs.Named.{some_of};
ghost use Rattle.state_ranges.specs.Places.{is_from};
ghost use Rattle.rules_event.specs.Identifiers.{is_ids, names_some};
ghost use Rattle.send_good_ids.specs.Inner.Marks.{Marked, Adds, Covered, GoodColumn};
ghost use Rattle.send_good_ids.specs.Inner.Made.{good_form, ModeFits, GoodMessage};

use codec_select::Which;
use codec_wire::{HEADER, Step};
use send_message::{Form, Owners};
use state_lookup::{Identifiers, Links};
use state_sets::AsSet;

// ---- the places that are named: the mark at a place says up to where it and those behind it are

// Place l and those behind it, before past, are named.
fn mark(until: &mut [u8; 128], l: usize, past: usize)
    requires { (l < 128) × (past ≤ 128) }
    ensures { Marked until.old l past until.new }
{
    until[l] = until[l].max(past as u8);
}

// Whether the identifier at place l is there, and not above stop.
fn is_up_to(ids: Identifiers, l: usize, stop: u32) -> bool
    ensures { result ≡ (ltb l ids.entry.count && leb (number_at ids.entry.iid.now l) stop) }
{
    if l < ids.count {
        return ids.iid[l] <= stop;
    }
    false
}

// A message up to this length names so few identifiers that guesses are not worth their time.
const FEW: usize = 255;

// For each number below 256 a place where a link stands whose identifier leaves that number over when divided
// by 256, if there is one: it is tried before a search, so that most links are found at once in whatever
// order they are named. What does not stand there is searched for. `len` is the message's length.
fn guesses(guess: &mut [u8; 256], ids: Identifiers, len: usize) {
    if len <= FEW {
        return;
    }
    for l in 0..ids.count {
        guess[(ids.iid[l] % 256) as usize] = l as u8;
    }
}

// The identifiers, with those guesses.
#[derive(Clone, Copy)]
struct Search<'a> {
    ids: Identifiers<'a>,
    guess: &'a [u8; 256],
}

impl<'a> Search<'a> {
    // The place that is tried for identifier x.
    fn guess_of(self, x: u32) -> usize {
        usize::from(self.guess[(x % 256) as usize])
    }

    // How many identifiers are below x: the place `near` is tried, then the guess.
    fn first_near(self, x: u32, near: usize) -> usize
        ensures { (result ≡ rank self.entry.ids.iid.now self.entry.ids.count x) × (result ≤ self.entry.ids.count) }
    {
        if self.ids.holds(near, x) {
            return near;
        }
        state_names::rank_near(self.ids, x, self.guess_of(x))
    }

    // How many identifiers are not above stop.
    #[tactic(auto, using(state_ranges::specs::Inner::Ranks::past_at))]
    fn past_near(self, first: usize, start: u32, stop: u32) -> usize
        requires { (first ≤ self.ids.count) × (start ≤ stop) }
        ensures { (result ≡ rank self.entry.ids.iid.now self.entry.ids.count (stop + 1)) × (result ≤ self.entry.ids.count) }
    {
        let near = self.guess_of(stop);
        if self.ids.holds(near, stop) {
            return near + 1;
        }
        state_ranges::past_of(self.ids, first, start, stop)
    }
}

// Those of the identifiers from start to stop; the place behind them. `near` is where they may begin. Where
// none of them is known, the place where they would begin says so, and the end is not searched for.
fn mark_range(until: &mut [u8; 128], search: Search, start: u32, stop: u32, near: usize) -> usize
    ensures { Adds until.old search.entry.ids.iid.now search.entry.ids.count (is_from start stop) until.new }
{
    if stop < start {
        return near;
    }
    let first = search.first_near(start, near);
    if !is_up_to(search.ids, first, stop) {
        return first;
    }
    let past = search.past_near(first, start, stop);
    mark(until, first, past);
    past
}

// That of identifier x; the place behind it.
// Kept: as a range from x to x it takes longer (docs/DECISIONS.md 104).
fn mark_id(until: &mut [u8; 128], search: Search, x: u32, near: usize) -> usize
    ensures { Adds until.old search.entry.ids.iid.now search.entry.ids.count (is_from x x) until.new }
{
    let l = search.first_near(x, near);
    if !is_up_to(search.ids, l, x) {
        return l;
    }
    mark(until, l, l + 1);
    l + 1
}

// Those of the value of a 0x1: few, which often come in order.
fn mark_few(until: &mut [u8; 128], value: &[u8], search: Search)
    ensures { Adds until.old search.entry.ids.iid.now search.entry.ids.count (λ x. some_of (eqb x) false value.now) until.new }
{
    let n = state_names::entries_of(value, false);
    let mut near: usize = 0;
    for i in 0..n {
        let x = state_names::start_at(value, false, i);
        near = mark_id(until, search, x, near);
    }
}

// The place behind l where it is named, else 0.
fn past_if(named: bool, l: usize) -> usize
    requires { l < 128 }
    ensures { result ≡ cond named (l + 1) 0 }
{
    if named { l + 1 } else { 0 }
}

// Kept: beside mark_few, for its speed (docs/DECISIONS.md).
// The same of many, in no order as a rule: by a table. What is unknown marks nothing, and no branch goes by
// it.
fn mark_many(until: &mut [u8; 128], value: &[u8], ids: Identifiers)
    ensures { Adds until.old ids.entry.iid.now ids.entry.count (λ x. some_of (eqb x) false value.now) until.new }
{
    let table = state_index::table_of(ids.iid, ids.count);
    let n = state_names::entries_of(value, false);
    for i in 0..n {
        let x = state_names::start_at(value, false, i);
        let f = state_index::find(&table, ids, x);
        let l = f.at;
        mark(until, l, past_if(f.known, l));
    }
}

// The same of any number.
fn mark_ids(until: &mut [u8; 128], value: &[u8], search: Search)
    ensures { Adds until.old search.entry.ids.iid.now search.entry.ids.count (λ x. some_of (eqb x) false value.now) until.new }
{
    if state_names::MANY <= value.len() {
        mark_many(until, value, search.ids);
        return;
    }
    mark_few(until, value, search);
}

// Those of the value of a 0x8.
fn mark_ranges(until: &mut [u8; 128], value: &[u8], search: Search)
    ensures { Adds until.old search.entry.ids.iid.now search.entry.ids.count (λ x. some_of (eqb x) true value.now) until.new }
{
    let n = state_names::entries_of(value, true);
    let mut near: usize = 0;
    for i in 0..n {
        let start = state_names::start_at(value, true, i);
        let stop = state_names::stop_at(value, true, i);
        near = mark_range(until, search, start, stop, near);
    }
}

// Those of a parameter.
fn mark_par(until: &mut [u8; 128], t: u16, v: &[u8], search: Search)
    ensures { Adds until.old search.entry.ids.iid.now search.entry.ids.count (λ x. is_ids t && some_of (eqb x) (eqb t 0x8) v.now) until.new }
{
    if t == 1 {
        mark_ids(until, v, search);
        return;
    }
    if t == 8 {
        mark_ranges(until, v, search);
    }
}

// Those of a message.
fn marks_of(s: &[u8], ids: Identifiers) -> [u8; 128]
    ensures { Covered result ids.entry.iid.now ids.entry.count (λ x. names_some (eqb x) (walk s.now 8).pars) }
{
    let mut guess = [0u8; 256];
    guesses(&mut guess, ids, s.len());
    let search = Search { ids, guess: &guess };
    let mut until = [0u8; 128];
    let mut at: usize = 8;
    loop {
        let w = codec_wire::step_at(s, at);
        let Step::Param { tag, len, next } = w else {
            return until;
        };
        let start = at + 4;
        let stop = at + len as usize;
        mark_par(&mut until, tag, &s[start..stop], search);
        at = next;
    }
}

// ---- the good ones

// 1 at the places of links that the message names and that an AS of the set mine owns, else 0.
pub fn good_places(s: &[u8], links: Links, mine: AsSet) -> [u8; 128]
    ensures { GoodColumn links.entry.ids.iid.now links.entry.owner.now links.entry.ids.count (members mine) (walk s.now 8).pars result }
{
    let until = marks_of(s, links.ids);
    let mut r = [0u8; 128];
    let mut past: u8 = 0;
    for l in 0..links.ids.count {
        past = past.max(until[l]);
        let named = l < usize::from(past);
        r[l] = u8::from(named & mine.has(links.owner_at(l)));
    }
    r
}

// ---- the message that names them alone

// What it is made of: the traffic mode of the received one, and the identifiers of the links that a column
// marks with 1. Its type is that of an Active.
fn good_form() -> Form
    ensures { result ≡ good_form }
{
    Form {
        class: 4,
        msgtype: 1,
        one: None,
        held: None,
        two: None,
        listed: Some(1),
        first: Which::Mode,
        after: Which::Nothing,
    }
}

// That message, written at a buffer's start; its length. mine are the ASes of the sender.
pub fn put_good(out: &mut [u8; 544], msg: &[u8], links: Links, mine: AsSet) -> usize
    requires { (length out.old ≡ 544) × ModeFits (walk msg.now 8).pars }
    ensures { GoodMessage links.entry.ids.iid.now links.entry.owner.now links.entry.ids.count (members mine) (walk msg.now 8).pars result out.new }
{
    let column = good_places(msg, links, mine);
    let form = good_form();
    let marked = Owners {
        iid: links.ids.iid,
        owner: &column,
        links: links.ids.count,
    };
    send_message::put_rest(out, HEADER, msg, marked, form)
}
