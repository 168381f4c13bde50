// The gateway's state (Rule 5.1), by value, as columns; and whether it is sound (Rule 5.4), asked group of
// columns by group of columns.
#![tactic(auto)]

ghost use Rattle.std.specs.Prelude.{◌≡◌, ℕ, true, cond, ◌&&◌, ◌<◌, ◌≤◌, length, ltb};
ghost use Rattle.laws.specs.Below.{all_below};
ghost use Rattle.state_tables.specs.Inner.Every.{Every, EveryFrom};
ghost use Rattle.state_tables.specs.Inner.Limits.{limit, limits_to, flags_of, Flags};
ghost use Rattle.state_tables.specs.Inner.Differ.{pad_with, lacks_from};
ghost use Rattle.state_tables.specs.Inner.Rows.{row_fails, sound_marks};
ghost use Rattle.state_tables.specs.Sound.{counts_in, blank_from, sound_column, differs, sound_asps, active_in, mode_at, waiting_at, override_at, sound_ases, ascends, sound_links, sound_kinds, sound_lists, no_units, zeros};
ghost use Rattle.state_tables.specs.Inner.Sound.{sound_tables_of};

mod place;

use place::Places;

// Index of a pair: as * 16 + asp. Flags are 0 or 1. Traffic modes: 1 override, 2 load-share, 3 broadcast.
// States of a link: 0 idle, 1 starting, 2 in service, 3 stopping. `iid` is the interface identifier,
// `waiting` that the recovery time runs. `spare` is 0 (Rule 5.20): it stands where padding would, which goes
// out as whatever the stack held. `highspeed` is 1 for a link by Q.703 Annex A, whose sequence numbers have
// 12 bits, and 0 for a plain one. `wholelists` is 1 for an ASP whose lists of identifiers are taken whole or
// not at all (Rule 7.8). `held` are the units held.
#[repr(C)]
#[derive(Clone, Copy)]
pub struct Gateway {
    pub asps: u8,
    pub ases: u8,
    pub links: u8,
    pub spare: u8,
    pub aspid: [u32; 16],
    pub up: [u8; 16],
    pub member: [u8; 256],
    pub active: [u8; 256],
    pub mode: [u8; 16],
    pub waiting: [u8; 16],
    pub iid: [u32; 128],
    pub owner: [u8; 128],
    pub state: [u8; 128],
    pub highspeed: [u8; 128],
    pub wholelists: [u8; 16],
    pub held: Units,
}

// The units held for ASes that wait (Rule 5.21): how many each AS has, and of unit k of AS a, the oldest
// first, at index a * 8 + k its tag, the length of that parameter, whether it has a correlation id, the
// identifier of its link, and that id. Its bytes lie in the hold (Rule 5.22).
#[repr(C)]
#[derive(Clone, Copy)]
pub struct Units {
    pub count: [u8; 16],
    pub tag: [u16; 128],
    pub length: [u16; 128],
    pub marked: [u16; 128],
    pub id: [u32; 128],
    pub correlation: [u32; 128],
}

// A count, where it is within the table.
fn within(n: u8, most: usize) -> usize
    ensures { (result ≤ most) × (n ≤ most → result ≡ n) }
{
    usize::from(n).min(most)
}

// The limit of a place: what it holds is below it. Beyond the count only 0 is.
fn limit(inside: bool, most: u8) -> u8
    ensures { result ≡ limit inside most }
{
    if inside { most } else { 1 }
}

fn places() -> Places {
    Places {
        index: std::array::from_fn(|i| i as u8),
    }
}

// Every number from the first one on, below the end, passes the test. All are asked, so that the loop has no
// branch: it becomes operations on 16 bytes.
fn every_from<F: Fn(usize) -> bool>(first: usize, end: usize, test: F) -> bool
    requires { (first ≤ end) × ((i : ℕ) → first ≤ i → i < end → F.pre test i) }
    ensures { EveryFrom (F.post test) first end result }
{
    let mut ok = true;
    for i in first..end {
        ok = ok & test(i);
    }
    ok
}

// Every number below n passes it.
pub fn every<F: Fn(usize) -> bool>(n: usize, test: F) -> bool
    requires { (i : ℕ) → i < n → F.pre test i }
    ensures { Every (F.post test) n result }
{
    every_from(0, n, test)
}

pub fn counts_ok(asps: u8, ases: u8, links: u8) -> bool
    ensures { result ≡ counts_in asps ases links }
{
    (((1 <= asps) & (asps <= 16)) & ((1 <= ases) & (ases <= 16))) & (links <= 128)
}

// The places of a column from n up to an end are zero; and of two columns, in one loop: the places that are
// left over by operations on 16 bytes are passed one by one, and so once.
fn blank(c: &[u32], n: usize, end: usize) -> bool
    requires { (n ≤ end) × (end ≤ length c.now) }
    ensures { result ≡ blank_from c.now n end }
{
    every_from(n, end, |i| c[i] == 0)
}

fn both_blank<'a>(c: &'a [u8], d: &'a [u8], n: usize, end: usize) -> bool
    requires { (n ≤ end) × (end ≤ length c.now) × (end ≤ length d.now) }
    ensures { result ≡ (blank_from c.now n end && blank_from d.now n end) }
{
    every_from(n, end, |i| (c[i] == 0) & (d[i] == 0))
}

// The identifier at p differs from those before it.
fn is_new(aspid: &[u32; 16], p: usize) -> bool
    requires { p < 16 }
    ensures { result ≡ differs aspid.now p }
{
    every(p, |q| aspid[q] != aspid[p])
}

fn few_new(aspid: &[u32; 16], n: usize) -> bool
    requires { n ≤ 16 }
    ensures { result ≡ all_below (differs aspid.now) n }
{
    for p in 0..n {
        if !is_new(aspid, p) {
            return false;
        }
    }
    true
}

// The column after 16 places that hold x: so the 16 places before that of p are x and what comes before p.
fn padded(aspid: &[u32; 16], x: u32) -> [u32; 32]
    ensures { result ≡ pad_with aspid.now x }
{
    let mut r = [x; 32];
    for q in 0..16usize {
        r[q + 16] = aspid[q];
    }
    r
}

// None of the 16 places from p on holds x.
fn lacks(c: &[u32; 32], p: usize, x: u32) -> bool
    requires { p ≤ 16 }
    ensures { result ≡ lacks_from c.now p x 16 }
{
    every(16, |q| c[p + q] != x)
}

// Each identifier but the last differs from those before it and from the last, at 16 places at once.
fn many_new(aspid: &[u32; 16], n: usize) -> bool
    requires { (1 ≤ n) × (n ≤ 16) }
    ensures { result ≡ all_below (differs aspid.now) n }
{
    let before = padded(aspid, aspid[n - 1]);
    for p in 0..n - 1 {
        if !lacks(&before, p, aspid[p]) {
            return false;
        }
    }
    true
}

// For few identifiers the column to compare with costs more than it gains.
pub fn all_new(aspid: &[u32; 16], n: usize) -> bool
    requires { n ≤ 16 }
    ensures { result ≡ all_below (differs aspid.now) n }
{
    if n < 8 {
        return few_new(aspid, n);
    }
    many_new(aspid, n)
}

// A column's first n places hold numbers below a bound, the others 0: all are below their limits.
fn under_within<'a>(place: &'a Places, c: &'a [u8], most: u8, n: u8, end: usize) -> bool
    requires { (end ≤ 128) × (end ≤ length c.now) }
    ensures { result ≡ sound_column c.now most n end }
{
    every(end, |i| c[i] < limit(place.index[i] < n, most))
}

// The groups of columns. Each answers for counts that are within the tables, and reads no place beyond them
// for any other.
fn asps_ok<'a>(place: &'a Places, asps: u8, aspid: &'a [u32; 16], up: &'a [u8; 16]) -> bool
    ensures { asps ≤ 16 → result ≡ sound_asps aspid.now up.now asps }
{
    let n = within(asps, 16);
    let differ = all_new(aspid, n);
    let beyond = blank(aspid, n, 16);
    let flags = under_within(place, up, 2, asps, 16);
    (differ & beyond) & flags
}

// How many members of AS a are active.
pub fn count_active(active: &[u8; 256], a: usize) -> usize
    requires { a < 16 }
    ensures { result ≡ active_in active.now a }
{
    let mut n: usize = 0;
    for q in 0..16usize {
        n = n + usize::from(active[a * 16 + q] == 1);
    }
    n
}

// The limits of the first 16 places of a column.
fn limits(place: &Places, n: u8, most: u8) -> [u8; 16]
    ensures { result ≡ limits_to n most }
{
    let mut r = [0u8; 16];
    for q in 0..16usize {
        r[q] = limit(place.index[q] < n, most);
    }
    r
}

// The flags of a column, and 0 for what is no flag.
fn flags(c: &[u8; 16]) -> [u8; 16]
    ensures { result ≡ flags_of c.now }
{
    let mut r = [0u8; 16];
    for q in 0..16usize {
        r[q] = u8::from(c[q] == 1);
    }
    r
}

// How many members of AS a are active, or 17 where a pair of its row is not as Rules 5.8 and 5.9 ask. The
// loop has no branch, so that it becomes one operation on 16 bytes; and it sums bytes, for that is one
// operation too.
fn row_count<'a>(
    top: &'a [u8; 16],
    up: &'a [u8; 16],
    member: &'a [u8; 256],
    active: &'a [u8; 256],
    a: usize,
) -> u32
    requires { (a < 16) × Flags up.now }
    ensures { result ≡ cond (row_fails top.now up.now member.now active.now a) 17 (active_in active.now a) }
{
    let mut bad = false;
    let mut n: u32 = 0;
    for q in 0..16usize {
        let m = member[a * 16 + q];
        let x = active[a * 16 + q];
        bad = bad | ((top[q] <= m) | (m.min(up[q]) < x));
        n = n + u32::from(x);
    }
    if bad {
        return 17;
    }
    n
}

fn mode_ok(mode: u8, inside: bool) -> bool
    ensures { result ≡ mode_at mode inside }
{
    (inside & ((1 <= mode) & (mode <= 3))) | (!inside & (mode == 0))
}

fn waiting_ok(waiting: u8, n: u8, inside: bool) -> bool
    ensures { result ≡ waiting_at waiting n inside }
{
    (waiting == 0) | ((waiting == 1) & (inside & (n == 0)))
}

fn override_ok(mode: u8, n: u8) -> bool
    ensures { result ≡ override_at mode n }
{
    (mode != 1) | (n <= 1)
}

// Mode and recovery time of every place, by the number of active members.
fn marks_ok<'a>(
    place: &'a Places,
    count: &'a [u8; 16],
    mode: &'a [u8; 16],
    waiting: &'a [u8; 16],
    ases: u8,
) -> bool
    ensures { result ≡ sound_marks count.now mode.now waiting.now ases 16 }
{
    every(16, |a| {
        let inside = place.index[a] < ases;
        let traffic = mode_ok(mode[a], inside);
        let wait = waiting_ok(waiting[a], count[a], inside);
        let alone = override_ok(mode[a], count[a]);
        (traffic & wait) & alone
    })
}

// The rows of the plan's ASes, and zeros beyond them. A row that fails ends the loop: without that exit the
// compiler makes slower code.
fn ases_ok<'a>(
    place: &'a Places,
    asps: u8,
    ases: u8,
    up: &'a [u8; 16],
    member: &'a [u8; 256],
    active: &'a [u8; 256],
    mode: &'a [u8; 16],
    waiting: &'a [u8; 16],
) -> bool
    ensures { ases ≤ 16 → result ≡ sound_ases up.now member.now active.now mode.now waiting.now asps ases }
{
    let m = within(ases, 16);
    let top = limits(place, asps, 2);
    let on = flags(up);
    let mut count = [0u8; 16];
    for a in 0..m {
        let c = row_count(&top, &on, member, active, a);
        if 16 < c {
            return false;
        }
        count[a] = c as u8;
    }
    let beyond = both_blank(member, active, m * 16, 256);
    let marks = marks_ok(place, &count, mode, waiting, ases);
    beyond & marks
}

pub fn ascending(iid: &[u32; 128], n: usize) -> bool
    requires { n ≤ 128 }
    ensures { result ≡ ascends iid.now n }
{
    every(n.saturating_sub(1), |l| iid[l] < iid[l + 1])
}

fn links_ok<'a>(
    place: &'a Places,
    ases: u8,
    links: u8,
    iid: &'a [u32; 128],
    owner: &'a [u8; 128],
    state: &'a [u8; 128],
) -> bool
    ensures { links ≤ 128 → result ≡ sound_links iid.now owner.now state.now ases links }
{
    let n = within(links, 128);
    let order = ascending(iid, n);
    let beyond = blank(iid, n, 128);
    let owned = under_within(place, owner, ases, links, 128);
    let known = under_within(place, state, 4, links, 128);
    (order & beyond) & (owned & known)
}

// The columns that are asked by themselves: a further one is one more call.
fn columns_ok<'a>(
    place: &'a Places,
    asps: u8,
    links: u8,
    highspeed: &'a [u8; 128],
    wholelists: &'a [u8; 16],
) -> bool
    ensures { result ≡ (sound_kinds highspeed.now links && sound_lists wholelists.now asps) }
{
    let kinds = under_within(place, highspeed, 2, links, 128);
    let lists = under_within(place, wholelists, 2, asps, 16);
    kinds & lists
}

// The tables of lent columns, for callers that hold the state and would copy it by a call.
// Kept: the C interface (include/m2ua.h) has these columns.
pub fn tables_ok<'a>(
    asps: u8,
    ases: u8,
    links: u8,
    spare: u8,
    aspid: &'a [u32; 16],
    up: &'a [u8; 16],
    member: &'a [u8; 256],
    active: &'a [u8; 256],
    mode: &'a [u8; 16],
    waiting: &'a [u8; 16],
    iid: &'a [u32; 128],
    owner: &'a [u8; 128],
    state: &'a [u8; 128],
    highspeed: &'a [u8; 128],
    wholelists: &'a [u8; 16],
) -> bool
    ensures { result ≡ sound_tables_of asps ases links spare aspid.now up.now member.now active.now mode.now waiting.now iid.now owner.now state.now highspeed.now wholelists.now }
{
    let c = counts_ok(asps, ases, links);
    let e = spare == 0;
    let place = places();
    let x = asps_ok(&place, asps, aspid, up);
    let y = ases_ok(&place, asps, ases, up, member, active, mode, waiting);
    let z = links_ok(&place, ases, links, iid, owner, state);
    let k = columns_ok(&place, asps, links, highspeed, wholelists);
    (c & e) & (x & (y & (z & k)))
}

impl Units {
    // No unit anywhere.
    pub fn none() -> Units
        ensures { result ≡ no_units }
    {
        Units {
            count: [0; 16],
            tag: [0; 128],
            length: [0; 128],
            marked: [0; 128],
            id: [0; 128],
            correlation: [0; 128],
        }
    }
}

impl Gateway {
    // What a refused plan hands back.
    pub fn zeros() -> Gateway
        ensures { result ≡ zeros }
    {
        Gateway {
            asps: 0,
            ases: 0,
            links: 0,
            spare: 0,
            aspid: [0; 16],
            up: [0; 16],
            member: [0; 256],
            active: [0; 256],
            mode: [0; 16],
            waiting: [0; 16],
            iid: [0; 128],
            owner: [0; 128],
            state: [0; 128],
            highspeed: [0; 128],
            wholelists: [0; 16],
            held: Units::none(),
        }
    }
}
