// Whether the whole state is sound (Rule 5.4): its tables, and the units that it holds (Rule 5.21).
#![tactic(auto)]

ghost use Rattle.std.specs.Prelude.{◌≡◌, true, cond, ℕ, ◌+◌, ◌<◌, ◌≤◌, length};
ghost use Rattle.laws.specs.Columns.{number_at};
ghost use Rattle.state_tables.specs.Sound.{all_under, is_sound, all_units};
ghost use Rattle.state_tables.specs.State.{units_of};
ghost use Rattle.state_sound.specs.Inner.Sound.{is_sound_of, units_in, blank_places, none_counted, counts_fit, data_fit, fields_fit, Marked, Seen, seen_fit, empty_fit, empties_fit, row_seen, rows_fit};

use state_tables::Gateway;

mod links;

use links::Links;

// The columns of the units held (Rule 5.21), as they are lent.
#[derive(Clone, Copy)]
pub struct Held<'a> {
    pub count: &'a [u8; 16],
    pub tag: &'a [u16; 128],
    pub length: &'a [u16; 128],
    pub marked: &'a [u16; 128],
    pub id: &'a [u32; 128],
    pub correlation: &'a [u32; 128],
}

// n places hold no unit. Columns of one width in one loop: so it becomes operations on 16 bytes.
fn blank<'a>(held: Held<'a>, from: usize, n: usize) -> bool
    requires { from + n ≤ 128 }
    ensures { result ≡ blank_places (units_in held.entry) from n }
{
    let narrow = state_tables::every(n, |k| {
        ((held.tag[from + k] == 0) & (held.length[from + k] == 0)) & (held.marked[from + k] == 0)
    });
    let wide = state_tables::every(n, |k| {
        (held.id[from + k] == 0) & (held.correlation[from + k] == 0)
    });
    narrow & wide
}

pub fn none_counted(count: &[u8; 16]) -> bool
    ensures { result ≡ none_counted count.now }
{
    state_tables::every(16, |a| count[a] == 0)
}

// An AS holds 8 at most, and some only while it waits.
fn counts_ok<'a>(count: &'a [u8; 16], waiting: &'a [u8; 16]) -> bool
    ensures { result ≡ counts_fit count.now waiting.now }
{
    state_tables::every(
        16,
        |a| (count[a] <= 8) & ((count[a] == 0) | (waiting[a] == 1)),
    )
}

// A unit but for its link: tag and length of protocol data, and a correlation id only where it is marked.
fn data_ok(tag: u16, length: u16, marked: u16, correlation: u32) -> bool
    ensures { result ≡ data_fit tag length marked correlation }
{
    (((tag == 768) | (tag == 769)) & ((5 <= length) & (length <= 277)))
        & ((marked == 1) | ((marked == 0) & (correlation == 0)))
}

fn fields_ok<'a>(held: Held<'a>, from: usize, n: usize) -> bool
    requires { from + n ≤ 128 }
    ensures { result ≡ fields_fit (units_in held.entry) from n }
{
    state_tables::every(n, |k| {
        let i = from + k;
        data_ok(
            held.tag[i],
            held.length[i],
            held.marked[i],
            held.correlation[i],
        )
    })
}

// 1 where t holds, and else what was there.
fn marked_if(t: bool, old: u32) -> u32
    ensures { result ≡ cond t 1 old }
{
    if t { 1 } else { old }
}

// The units of AS a that are of the link with identifier x are marked. Eight places without a branch: so it
// becomes operations on 16 bytes.
fn mark(seen: &mut [u32; 128], id: &[u32; 128], x: u32, a: usize)
    requires { a < 16 }
    ensures { Marked id.now x a 8 seen.old seen.new }
{
    let from = a * 8;
    for k in 0..8usize {
        let i = from + k;
        seen[i] = marked_if(id[i] == x, seen[i]);
    }
}

// Which units are of a link of their AS: each link marks its own, so that no link is searched for.
fn seen_of<'a>(id: &'a [u32; 128], links: Links<'a>) -> [u32; 128]
    ensures { Seen id.now links.entry.iid.now links.entry.owner.now links.entry.count result }
{
    let mut seen = [0u32; 128];
    for l in 0..links.count {
        mark(&mut seen, id, links.iid[l], usize::from(links.owner[l]));
    }
    seen
}

// The first n units of AS a are marked.
fn ids_ok(seen: &[u32; 128], a: usize, n: usize) -> bool
    requires { (a < 16) × (n ≤ 8) }
    ensures { result ≡ seen_fit seen.now a n }
{
    state_tables::every(n, |k| seen[a * 8 + k] == 1)
}

// The places of an AS that holds n, where n is 0; and where it is not.
fn empty_ok<'a>(held: Held<'a>, n: u8, a: usize) -> bool
    requires { a < 16 }
    ensures { result ≡ empty_fit (units_in held.entry) n a }
{
    if n == 0 {
        return blank(held, a * 8, 8);
    }
    true
}

fn row_ok<'a>(held: Held<'a>, seen: &'a [u32; 128], n: usize, a: usize) -> bool
    requires { (a < 16) × (n ≤ 8) }
    ensures { result ≡ row_seen (units_in held.entry) seen.now n a }
{
    if n == 0 {
        return true;
    }
    let x = fields_ok(held, a * 8, n);
    let y = ids_ok(seen, a, n);
    let z = blank(held, a * 8 + n, 8 - n);
    x & (y & z)
}

// Two loops over the ASes: of one the compiler makes slower code.
fn empties_ok<'a>(held: Held<'a>) -> bool
    ensures { result ≡ empties_fit (units_in held.entry) }
{
    for a in 0..16usize {
        if !empty_ok(held, held.count[a], a) {
            return false;
        }
    }
    true
}

fn rows_ok<'a>(held: Held<'a>, links: Links<'a>) -> bool
    requires { (a : ℕ) → a < 16 → number_at held.count.now a ≤ 8 }
    ensures { result ≡ rows_fit (units_in held.entry) links.entry.iid.now links.entry.owner.now links.entry.count }
{
    let seen = seen_of(held.id, links);
    for a in 0..16usize {
        if !row_ok(held, &seen, usize::from(held.count[a]), a) {
            return false;
        }
    }
    true
}

// Nearly always no unit is held, and then all columns are asked at once.
fn held_ok<'a>(held: Held<'a>, waiting: &'a [u8; 16], links: Links<'a>) -> bool
    ensures { result ≡ all_units (units_in held.entry) waiting.now links.entry.iid.now links.entry.owner.now links.entry.count }
{
    if none_counted(held.count) {
        return blank(held, 0, 128);
    }
    if !counts_ok(held.count, waiting) {
        return false;
    }
    if !empties_ok(held) {
        return false;
    }
    rows_ok(held, links)
}

// Kept: docs/STATEMENTS.md names units_ok, which has the columns of the C interface (include/m2ua.h).
pub fn units_ok<'a>(
    count: &'a [u8; 16],
    tag: &'a [u16; 128],
    length: &'a [u16; 128],
    marked: &'a [u16; 128],
    id: &'a [u32; 128],
    correlation: &'a [u32; 128],
    waiting: &'a [u8; 16],
    iid: &'a [u32; 128],
    owner: &'a [u8; 128],
    links: usize,
) -> bool
    requires { (links ≤ 128) × (all_under owner.now 16 links ≡ true) }
    ensures { result ≡ all_units (units_of count.now tag.now length.now marked.now id.now correlation.now) waiting.now iid.now owner.now links }
{
    let held = Held {
        count,
        tag,
        length,
        marked,
        id,
        correlation,
    };
    let owned = Links {
        iid,
        owner,
        count: links,
    };
    held_ok(held, waiting, owned)
}

// The whole of lent columns, for callers that hold the state and would copy it by a call. (The columns have
// their places by their types.)
// Kept: the C interface (include/m2ua.h) has these columns.
pub fn sound_of<'a>(
    asps: u8,
    ases: u8,
    links: u8,
    spare: u8,
    aspid: &'a [u32; 16],
    up: &'a [u8; 16],
    member: &'a [u8; 256],
    active: &'a [u8; 256],
    mode: &'a [u8; 16],
    waiting: &'a [u8; 16],
    iid: &'a [u32; 128],
    owner: &'a [u8; 128],
    state: &'a [u8; 128],
    highspeed: &'a [u8; 128],
    wholelists: &'a [u8; 16],
    count: &'a [u8; 16],
    tag: &'a [u16; 128],
    length: &'a [u16; 128],
    marked: &'a [u16; 128],
    id: &'a [u32; 128],
    correlation: &'a [u32; 128],
) -> bool
    ensures { result ≡ is_sound_of asps ases links spare aspid.now up.now member.now active.now mode.now waiting.now iid.now owner.now state.now highspeed.now wholelists.now count.now tag.now length.now marked.now id.now correlation.now }
{
    if !state_tables::tables_ok(
        asps, ases, links, spare, aspid, up, member, active, mode, waiting, iid, owner, state,
        highspeed, wholelists,
    ) {
        return false;
    }
    units_ok(
        count,
        tag,
        length,
        marked,
        id,
        correlation,
        waiting,
        iid,
        owner,
        usize::from(links),
    )
}

pub fn is_sound(g: Gateway) -> bool
    ensures { result ≡ is_sound g }
{
    let asps = g.asps;
    let ases = g.ases;
    let links = g.links;
    let spare = g.spare;
    sound_of(
        asps,
        ases,
        links,
        spare,
        &g.aspid,
        &g.up,
        &g.member,
        &g.active,
        &g.mode,
        &g.waiting,
        &g.iid,
        &g.owner,
        &g.state,
        &g.highspeed,
        &g.wholelists,
        &g.held.count,
        &g.held.tag,
        &g.held.length,
        &g.held.marked,
        &g.held.id,
        &g.held.correlation,
    )
}
