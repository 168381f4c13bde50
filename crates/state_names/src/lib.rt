// The identifiers that the value of a parameter names (Rule 2.11): the first that is refused, and the ASes
// that own the known ones.
#![tactic(auto)]

ghost use Rattle.std.specs.Prelude.{◌≡◌, true, false, cond, ◌||◌, ◌<◌, ◌≤◌};
ghost use Rattle.std.specs.Bool.{then_some};
ghost use Rattle.laws.specs.Columns.{flag_at, tabulate};
ghost use Rattle.state_lookup.specs.Inner.Links.{rank};
ghost use Rattle.state_lookup.specs.Inner.Index.{IndexIs};
ghost use Rattle.state_sets.specs.Inner.Members.{members};
ghost use Rattle.state_ranges.specs.Named.{start_at, stop_at, entries, first_in, refused_in, some_in, some_of};
ghost use Rattle.state_ranges.specs.Inner.Of.{refused_of, owned_of};
ghost use Rattle.state_ranges.specs.Inner.Owners.{Looked};
ghost use Rattle.state_ranges.specs.Inner.Names.{earlier, as_refused, Names};
ghost use Rattle.state_names.specs.Inner.Run.{GoodAt, GoesOn};

use state_index::Found;
use state_lookup::{Identifiers, Links};
use state_ranges::Named;
use state_sets::AsSet;

// ---- identifiers

// How many identifiers are below x. They often come in order: so the place `near` is tried first. (500 in
// order take a quarter to a third of the time.)
pub fn rank_near(ids: Identifiers, x: u32, near: usize) -> usize
    ensures { (result ≡ rank ids.entry.iid.now ids.entry.count x) × (result ≤ ids.entry.count) }
{
    if ids.holds(near, x) {
        return near;
    }
    state_ranges::rank_at(ids, x)
}

// Whether identifier x stands at place l, of an AS that is in the set mine.
fn is_good_at(links: Links, mine: AsSet, l: usize, x: u32) -> bool
    ensures { result ≡ GoodAt links.entry.ids.iid.now links.entry.owner.now links.entry.ids.count (members mine) l x }
{
    if links.ids.count <= l {
        return false;
    }
    (links.ids.iid[l] == x) & mine.has(links.owner_at(l))
}

// How far the identifiers of a value are looked at: the next entry, the place where its link may stand, and
// the owners so far.
#[derive(Drop)]
struct Run {
    i: usize,
    near: usize,
    set: AsSet,
}

// Where the last one stood where it was expected, the good ones that go on in order behind it: a loop with
// nothing in it but what these need. (With the search in it too, 500 in order of 128 links take a fifth
// longer as an event.)
fn in_order(go: bool, from: Run, value: &[u8], links: Links, mine: AsSet) -> Run
    requires { (from.i ≤ entries false value.now) }
    ensures { GoesOn links.entry.ids.iid.now links.entry.owner.now links.entry.ids.count (members mine) value.now from.i (members from.set) result.i (members result.set) }
{
    if !go {
        return from;
    }
    let n = value.len() / 4;
    let mut r = from.set;
    let mut l = from.near;
    for i in from.i..n {
        let x = codec_wire::get32(value, 4 * i);
        if !is_good_at(links, mine, l, x) {
            return Run { i, near: l, set: r };
        }
        r = r.with(links.owner_at(l));
        l += 1;
    }
    Run {
        i: n,
        near: l,
        set: r,
    }
}

// From so many bytes on a table of the links is worth its time.
pub const MANY: usize = 256;

// What was named before, with x, of which a table says where it stands. (A place that is not that of x may
// have any owner: so what is left over by 16.)
fn with_found(old: Named, links: Links, mine: AsSet, f: Found, x: u32) -> Named
    requires { IndexIs links.ids.iid.now links.ids.count x (then_some f.known f.at) × (f.at < 128) }
    ensures { Names result (earlier (as_refused old.refused) (first_in (refused_of links.entry mine) x x)) (tabulate 16 (λ a. flag_at (members old.set) a || some_in (owned_of links.entry a) x x)) }
{
    let l = f.at;
    let a = usize::from(links.owner[l]) % 16;
    let good = f.known & mine.has(a);
    Named {
        refused: old.refused.or((!good).then_some(x)),
        set: old.set.with_if(a, f.known),
    }
}

// The same of many, in no order as a rule.
// Kept: beside of_few, which in_order serves: each is faster where it is taken (docs/DECISIONS.md).
fn of_many(old: Named, value: &[u8], links: Links, mine: AsSet) -> Named
    ensures { Names result (earlier (as_refused old.refused) (refused_in (refused_of links.entry mine) false value.now)) (tabulate 16 (λ a. flag_at (members old.set) a || some_of (owned_of links.entry a) false value.now)) }
{
    let n = value.len() / 4;
    let table = state_index::table_of(links.ids.iid, links.ids.count);
    let mut r = old;
    for i in 0..n {
        let x = codec_wire::get32(value, 4 * i);
        let f = state_index::find(&table, links.ids, x);
        r = with_found(r, links, mine, f, x);
    }
    r
}

// The identifiers of the value of a 0x1, beside what was named before: few, which often come in order.
// Kept: the loop's place jumps over those that came in order.
fn of_few(old: Named, value: &[u8], links: Links, mine: AsSet) -> Named
    ensures { Names result (earlier (as_refused old.refused) (refused_in (refused_of links.entry mine) false value.now)) (tabulate 16 (λ a. flag_at (members old.set) a || some_of (owned_of links.entry a) false value.now)) }
{
    let n = value.len() / 4;
    let mut r = old;
    let mut near: usize = 0;
    let mut i: usize = 0;
    while i < n {
        let x = codec_wire::get32(value, 4 * i);
        let l = rank_near(links.ids, x, near);
        let e = state_ranges::with_id(r, links, mine, l, x);
        let from = Run {
            i: i + 1,
            near: l + 1,
            set: e.set,
        };
        let t = in_order(l == near, from, value, links, mine);
        r = Named {
            refused: e.refused,
            set: t.set,
        };
        near = t.near;
        i = t.i;
    }
    r
}

// The same of any number.
pub fn of_ids(old: Named, value: &[u8], links: Links, mine: AsSet) -> Named
    ensures { Names result (earlier (as_refused old.refused) (refused_in (refused_of links.entry mine) false value.now)) (tabulate 16 (λ a. flag_at (members old.set) a || some_of (owned_of links.entry a) false value.now)) }
{
    if MANY <= value.len() {
        return of_many(old, value, links, mine);
    }
    of_few(old, value, links, mine)
}

// ---- ranges

// Those of the value of a 0x8.
pub fn of_ranges(old: Named, far: &mut [u8; 128], value: &[u8], links: Links, mine: AsSet) -> Named
    requires { Looked links.owner.now far.old (members old.set) }
    ensures { Names result (earlier (as_refused old.refused) (refused_in (refused_of links.entry mine) true value.now)) (tabulate 16 (λ a. flag_at (members old.set) a || some_of (owned_of links.entry a) true value.now)) × Looked links.entry.owner.now far.new (members result.set) }
{
    let n = value.len() / 8;
    let mut r = old;
    for i in 0..n {
        let start = codec_wire::get32(value, 8 * i);
        let stop = codec_wire::get32(value, 8 * i + 4);
        r = state_ranges::with_range(r, far, links, mine, start, stop);
    }
    r
}

// ---- the owners alone; pairs says that the tag is 0x8
// Kept: `pairs` is what the believed definitions of state_ranges/specs/Named ask (`entries`, `some_of`).

pub fn entries_of(value: &[u8], pairs: bool) -> usize
    ensures { result ≡ entries pairs value.now }
{
    if pairs {
        return value.len() / 8;
    }
    value.len() / 4
}

pub fn start_at(value: &[u8], pairs: bool, i: usize) -> u32
    requires { i < entries pairs value.now }
    ensures { result ≡ start_at pairs value.now i }
{
    if pairs {
        return codec_wire::get32(value, 8 * i);
    }
    codec_wire::get32(value, 4 * i)
}

pub fn stop_at(value: &[u8], pairs: bool, i: usize) -> u32
    requires { i < entries pairs value.now }
    ensures { result ≡ stop_at pairs value.now i }
{
    if pairs {
        return codec_wire::get32(value, 8 * i + 4);
    }
    start_at(value, pairs, i)
}

// The set, with the ASes that own a known identifier of the value.
pub fn owners_of(set: AsSet, far: &mut [u8; 128], value: &[u8], pairs: bool, links: Links) -> AsSet
    requires { Looked links.owner.now far.old (members set) }
    ensures { (members result ≡ tabulate 16 (λ a. flag_at (members set) a || some_of (owned_of links.entry a) pairs value.now)) × Looked links.entry.owner.now far.new (members result) }
{
    let n = entries_of(value, pairs);
    let mut r = set;
    for i in 0..n {
        let start = start_at(value, pairs, i);
        let stop = stop_at(value, pairs, i);
        r = state_ranges::owners_in(r, far, links, start, stop);
    }
    r
}
