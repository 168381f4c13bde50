// The plan file: a fresh state of the gateway (Rule 4.6), or a refusal (Rules 4.4, 4.5, 4.7).
#![tactic(auto)]

ghost use Rattle.std.specs.Prelude.{◌≡◌, ℕ, true, ◌&&◌, ◌+◌, ◌*◌, ◌<◌, ◌≤◌, leb, ltb, eqb, length};
ghost use Rattle.laws.specs.Below.{all_below};
ghost use Rattle.state_plan.specs.Plan.{offset, count, layout_ok, column, bit, bits_from, high, low, members, link_kinds, list_rules, load_of};
ghost use Rattle.state_plan.specs.Inner.Layout.{Inside, places_of, rows_at, state_at, AllBytes, number, code_of, rows_in, made};
ghost use Rattle.state_plan.specs.Inner.Tables.{Read, word_of, byte_of, RowsIn, AllIn, floor_of};

use state_tables::{Gateway, Units};

const CONTENTS: usize = 24;

const ASP_ROW: usize = 8;

const AS_ROW: usize = 4;

const LINK_ROW: usize = 8;

// The kinds of a link: 0 plain, 1 high-speed.
const LINK_KINDS: u32 = 2;

// The rules for an ASP's lists: 0 part may succeed, 1 whole or not at all.
const LIST_RULES: u32 = 2;

// Why a file is refused: its layout (Rule 4.4), or a row (Rule 4.5).
#[derive(Clone, Copy, Debug, PartialEq, Eq)]
pub enum PlanRefusal {
    Layout,
    Row,
}

impl From<PlanRefusal> for u32 {
    fn from(refusal: PlanRefusal) -> u32
        ensures { result ≡ number refusal }
    {
        match refusal {
            PlanRefusal::Layout => 201,
            PlanRefusal::Row => 202,
        }
    }
}

// The answer to a file: code 0 and a fresh state, or 201 or 202 and a state of zeros.
// Kept: the C interface (include/m2ua.h) has this struct.
#[repr(C)]
#[derive(Drop)]
pub struct Loaded {
    pub code: u32,
    pub gateway: Gateway,
}

// ---- the contents

fn offset_of(s: &[u8], i: usize) -> usize
    requires { i * 8 + 8 ≤ length s.now }
    ensures { (result ≡ offset s.now i) × (result < 4294967296) }
{
    codec_wire::get32(s, i * 8) as usize
}

fn count_of(s: &[u8], i: usize) -> usize
    requires { i * 8 + 8 ≤ length s.now }
    ensures { (result ≡ count s.now i) × (result < 4294967296) }
{
    codec_wire::get32(s, i * 8 + 4) as usize
}

// Body i starts at a position and has at least least, at most most rows.
fn entry_ok(s: &[u8], i: usize, at: usize, least: usize, most: usize) -> bool
    requires { i * 8 + 8 ≤ length s.now }
    ensures { result ≡ (eqb (offset s.now i) at && (leb least (count s.now i) && leb (count s.now i) most)) }
{
    let from = offset_of(s, i);
    let n = count_of(s, i);
    (from == at) & ((least <= n) & (n <= most))
}

fn laid_out(s: &[u8]) -> bool
    ensures { result ≡ layout_ok s.now }
{
    if s.len() < CONTENTS {
        return false;
    }
    let first = CONTENTS + ASP_ROW * count_of(s, 0);
    let second = first + AS_ROW * count_of(s, 1);
    let third = second + LINK_ROW * count_of(s, 2);
    let x = entry_ok(s, 0, CONTENTS, 1, 16);
    let y = entry_ok(s, 1, first, 1, 16);
    let z = entry_ok(s, 2, second, 0, 128);
    x & (y & (z & (third == s.len())))
}

// ---- the rows, as tables with zeros beyond them

// What is read of each of n rows, and zeros beyond them.
fn column<T: Copy, const N: usize, F: Fn(usize) -> T>(zero: T, n: usize, read: F) -> [T; N]
    requires { (n ≤ N) × ((i : ℕ) → i < n → F.pre read i) }
    ensures { Read (F.post read) zero N n result }
{
    let mut r = [zero; N];
    for i in 0..n {
        r[i] = read(i);
    }
    r
}

// One word of each of n rows: the first at a position, every next one a row further on.
fn words<const N: usize>(s: &[u8], at: usize, row: usize, n: usize) -> [u32; N]
    requires { (n ≤ N) × RowsIn (length s.now) at row n }
    ensures { result ≡ column N n (word_of s.now at row) }
{
    column(0, n, |i| codec_wire::get32(s, at + row * i))
}

// The same for one byte of each row: modes, rules for lists, owners and kinds are below 256.
fn bytes<const N: usize>(s: &[u8], at: usize, row: usize, n: usize) -> [u8; N]
    requires { (n ≤ N) × AllIn (λ i. at + row * i) n (length s.now) }
    ensures { result ≡ column N n (byte_of s.now at row) }
{
    column(0, n, |i| s[at + row * i])
}

// ---- the conditions on rows (Rule 4.5), asked of the file's words: a refused file needs no table

fn modes_ok(s: &[u8], at: usize, ases: usize) -> bool
    requires { RowsIn (length s.now) at 4 ases }
    ensures { result ≡ all_below (λ a. leb 1 (word_of s.now at 4 a) && leb (word_of s.now at 4 a) 3) ases }
{
    state_tables::every(ases, |a| {
        let x = codec_wire::get32(s, at + AS_ROW * a);
        (1 <= x) & (x <= 3)
    })
}

// The second word of an ASP's row: its mask, then the rule for its lists.
fn masks_ok(s: &[u8], at: usize, asps: usize, ases: u32) -> bool
    requires { RowsIn (length s.now) at 8 asps × (ases ≤ 16) }
    ensures { result ≡ all_below (λ p. eqb (bits_from (high (word_of s.now at 8 p)) ases) 0 && ltb (low (word_of s.now at 8 p)) list_rules) asps }
{
    state_tables::every(asps, |p| {
        let x = codec_wire::get32(s, at + ASP_ROW * p);
        ((x / 65536) >> ases == 0) & (x % 65536 < LIST_RULES)
    })
}

// Identifiers that ascend, each at least one more than the one before it, owners and kinds: all of a row in
// one pass. The kinds are below 2 where their bits together are: tested one by one, they would take 0.4 ns
// more for a link.
fn links_ok(s: &[u8], at: usize, links: usize, ases: u32) -> bool
    requires { (links ≤ 128) × (at + 8 * links ≤ length s.now) }
    ensures { result ≡ (all_below (λ l. leb (floor_of (word_of s.now at 8) l) (word_of s.now at 8 l) && ltb (low (word_of s.now (at + 4) 8 l)) ases) links && all_below (λ l. ltb (high (word_of s.now (at + 4) 8 l)) link_kinds) links) }
{
    let mut ok = true;
    let mut least: u64 = 0;
    let mut bits: u32 = 0;
    for l in 0..links {
        let id = u64::from(codec_wire::get32(s, at + LINK_ROW * l));
        let x = codec_wire::get32(s, at + 4 + LINK_ROW * l);
        bits = bits | x;
        ok = ok & ((least <= id) & (x % 65536 < ases));
        least = id + 1;
    }
    ok & (bits / 65536 < LINK_KINDS)
}

// Where the bodies of a file start, and how many rows they have.
#[derive(Clone, Copy)]
pub struct Places {
    pub asps: usize,
    pub ases: usize,
    pub links: usize,
    pub x: usize,
    pub y: usize,
    pub z: usize,
}

// Of a refused file no row is taken over.
const NOWHERE: Places = Places {
    asps: 0,
    ases: 0,
    links: 0,
    x: 0,
    y: 0,
    z: 0,
};

fn rows_ok(s: &[u8], t: Places) -> bool
    requires { Inside t (length s.now) }
    ensures { result ≡ rows_at s.now t }
{
    let m = t.ases as u32;
    let traffic = modes_ok(s, t.y, t.ases);
    let masked = masks_ok(s, t.x + 4, t.asps, m);
    let aspid = words(s, t.x, ASP_ROW, t.asps);
    let differ = state_tables::all_new(&aspid, t.asps);
    let linked = links_ok(s, t.z, t.links, m);
    (traffic & masked) & (differ & linked)
}

fn places_of(s: &[u8]) -> Places
    requires { layout_ok s.now ≡ true }
    ensures { result ≡ places_of s.now }
{
    let asps = count_of(s, 0);
    let ases = count_of(s, 1);
    let links = count_of(s, 2);
    let x = offset_of(s, 0);
    let y = offset_of(s, 1);
    let z = offset_of(s, 2);
    Places {
        asps,
        ases,
        links,
        x,
        y,
        z,
    }
}

// The rows that a file has, or why it is refused: the layout is decided before any row is looked at.
fn rows_in(s: &[u8]) -> Result<Places, PlanRefusal>
    ensures { result ≡ rows_in s.now }
{
    if !laid_out(s) {
        return Err(PlanRefusal::Layout);
    }
    let t = places_of(s);
    if !rows_ok(s, t) {
        return Err(PlanRefusal::Row);
    }
    Ok(t)
}

// ---- the fresh state (Rule 4.6)

fn bit_of(mask: u16, a: u16) -> u8
    requires { a < 16 }
    ensures { result ≡ bit mask a }
{
    ((mask >> a) % 2) as u8
}

// The masks of n rows: the upper halves of the words from a position on, in 16 bits, of which the table of
// members is made in fewer steps.
fn masks_of(s: &[u8], at: usize, n: usize) -> [u16; 16]
    requires { (n ≤ 16) × RowsIn (length s.now) at 8 n }
    ensures { result ≡ column 16 n (λ p. high (word_of s.now at 8 p)) }
{
    column(
        0,
        n,
        |p| (codec_wire::get32(s, at + ASP_ROW * p) / 65536) as u16,
    )
}

fn members_of(mask: &[u16; 16]) -> [u8; 256]
    ensures { result ≡ members mask.now }
{
    let mut r = [0u8; 256];
    for a in 0..16u16 {
        for q in 0..16usize {
            r[usize::from(a) * 16 + q] = bit_of(mask[q], a);
        }
    }
    r
}

// The number of an answer: 0 for an accepted file.
fn code_of(r: Result<Places, PlanRefusal>) -> u32
    ensures { result ≡ code_of r }
{
    match r {
        Ok(_) => 0,
        Err(refusal) => u32::from(refusal),
    }
}

// One way for accepted and refused files: where two ways build a state, the compiler makes it in a place of
// its own and copies it out by parts that do not fit one another.
fn build(s: &[u8], t: Places, code: u32) -> Loaded
    requires { Inside t (length s.now) × AllBytes s.now t }
    ensures { result ≡ made code (state_at s.now t) }
{
    let mask = masks_of(s, t.x + 4, t.asps);
    let member = members_of(&mask);
    // the last byte of a mode's word, of an ASP's second word, and of each half of a link's
    let modes = bytes(s, t.y + 3, AS_ROW, t.ases);
    let lists = bytes(s, t.x + 7, ASP_ROW, t.asps);
    let owners = bytes(s, t.z + 7, LINK_ROW, t.links);
    let kinds = bytes(s, t.z + 5, LINK_ROW, t.links);
    let aspid = words(s, t.x, ASP_ROW, t.asps);
    let iid = words(s, t.z, LINK_ROW, t.links);
    Loaded {
        code,
        gateway: Gateway {
            asps: t.asps as u8,
            ases: t.ases as u8,
            links: t.links as u8,
            spare: 0,
            aspid,
            up: [0; 16],
            member,
            active: [0; 256],
            mode: modes,
            waiting: [0; 16],
            iid,
            owner: owners,
            state: [0; 128],
            highspeed: kinds,
            wholelists: lists,
            held: Units::none(),
        },
    }
}

pub fn load(file: &[u8]) -> Loaded
    ensures { result ≡ load_of file.now }
{
    let rows = rows_in(file);
    build(file, rows.unwrap_or(NOWHERE), code_of(rows))
}
