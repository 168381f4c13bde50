// The record of one AS (Rule 5.3), cut out of the gateway's columns: what an event does to it, and the
// Notifies that follow.
#![tactic(auto)]

ghost use Rattle.std.specs.Prelude.{◌≡◌, true, ◌+◌, ◌*◌, ◌<◌, ◌≤◌, length};
ghost use Rattle.laws.specs.Columns.{number_at};
ghost use Rattle.rules_action.specs.Inner.Words.{Written};
ghost use Rattle.rules_server.specs.Record.{row, members_up, record_from, some, state_in};
ghost use Rattle.rules_server.specs.Inner.Record.{with_row};
ghost use Rattle.rules_server.specs.Change.{record_with, after, overtaken_in};
ghost use Rattle.rules_server.specs.Inner.Flag.{flagged, flag_of, less, more, activated_by, overtaken_by};
ghost use Rattle.rules_server.specs.Inner.Notify.{announced, spoken};
ghost use Rattle.rules_server.specs.Inner.Change.{fits};
ghost use Rattle.rules_server.specs.Units.{units_out, let_out};

use rules_action::Action;

mod moved;

pub use moved::Moved;

// Its members that are up, those active in it, whether it waits, its traffic mode.
#[derive(Clone, Copy)]
pub struct AsRecord {
    pub ups: [bool; 16],
    pub acts: [bool; 16],
    pub waiting: bool,
    pub mode: u8,
}

// What an event does in the ASes that it names. AspUp(p): ASP p is up, and active nowhere. AspDown(p): it is
// down. Deactivate(p): it becomes inactive. Activate(p): it becomes active, in override alone. Recover: the
// recovery time is over.
#[derive(Clone, Copy)]
pub enum Change {
    AspUp(usize),
    AspDown(usize),
    Deactivate(usize),
    Activate(usize),
    Recover,
}

// Whether some flag is set.
pub fn has_some(x: [bool; 16]) -> bool
    ensures { result ≡ some x }
{
    let mut found = false;
    for q in 0..16usize {
        found = found | x[q];
    }
    found
}

// What is kept of a unit that comes in (Rule 7.24), and where its bytes begin in the message.
#[derive(Clone, Copy)]
pub struct Arrival {
    pub tag: u16,
    pub length: u16,
    pub marked: u16,
    pub id: u32,
    pub correlation: u32,
    pub start: usize,
}

// ---- cut out and put back

// The row of AS a.
pub fn row_of(column: &[u8; 256], a: usize) -> [bool; 16]
    requires { a < 16 }
    ensures { result ≡ row column.now a }
{
    let mut r = [false; 16];
    for q in 0..16usize {
        r[q] = column[a * 16 + q] == 1;
    }
    r
}

// The members of AS a that are up.
fn members_up(up: &[u8; 16], member: &[u8; 256], a: usize) -> [bool; 16]
    requires { a < 16 }
    ensures { result ≡ members_up up.now member.now a }
{
    let mut r = [false; 16];
    for q in 0..16usize {
        r[q] = (member[a * 16 + q] == 1) & (up[q] == 1);
    }
    r
}

// The record of AS a.
pub fn record_of(
    up: &[u8; 16],
    member: &[u8; 256],
    active: &[u8; 256],
    waiting: &[u8; 16],
    mode: &[u8; 16],
    a: usize,
) -> AsRecord
    requires { a < 16 }
    ensures { result ≡ record_from up.now member.now active.now waiting.now mode.now a }
{
    let ups = members_up(up, member, a);
    let acts = row_of(active, a);
    AsRecord {
        ups,
        acts,
        waiting: waiting[a] == 1,
        mode: mode[a],
    }
}

pub fn put_row(column: &mut [u8; 256], a: usize, x: [bool; 16])
    requires { a < 16 }
    ensures { column.new ≡ with_row column.old a x }
{
    for q in 0..16usize {
        column[a * 16 + q] = u8::from(x[q]);
    }
}

// ---- the changes

// ASP p alone.
fn alone(p: usize) -> [bool; 16]
    ensures { result ≡ flagged p }
{
    let mut r = [false; 16];
    if p < 16 {
        r[p] = true;
    }
    r
}

// The ASP of a change, as a flag: found once, for all ASes. (A test of each place against p is the slower by
// far.)
pub fn flag_of(k: Change) -> [bool; 16]
    ensures { result ≡ flag_of k }
{
    match k {
        Change::AspUp(p) => alone(p),
        Change::AspDown(p) => alone(p),
        Change::Deactivate(p) => alone(p),
        Change::Activate(p) => alone(p),
        Change::Recover => [false; 16],
    }
}

impl Moved {
    pub fn by(change: Change) -> Moved
        requires { fits change ≡ true }
        ensures { result.change ≡ change }
    {
        let me = flag_of(change);
        Moved { change, me }
    }
}

// x without those of y
// Kept: minus and plus differ in an operator; by array::from_fn with a closure the goal returns stays open.
fn minus(x: [bool; 16], y: [bool; 16]) -> [bool; 16]
    ensures { result ≡ less x y }
{
    let mut r = [false; 16];
    for q in 0..16usize {
        r[q] = x[q] & !y[q];
    }
    r
}

// x with those of y
fn plus(x: [bool; 16], y: [bool; 16]) -> [bool; 16]
    ensures { result ≡ more x y }
{
    let mut r = [false; 16];
    for q in 0..16usize {
        r[q] = x[q] | y[q];
    }
    r
}

// The active members once those of y are, in override they alone.
fn turn_on(x: [bool; 16], mode: u8, y: [bool; 16]) -> [bool; 16]
    ensures { result ≡ activated_by x mode y }
{
    if mode == 1 {
        return y;
    }
    plus(x, y)
}

// Those whom they overtake in override.
fn overtake(x: [bool; 16], mode: u8, y: [bool; 16]) -> [bool; 16]
    ensures { result ≡ overtaken_by x mode y }
{
    if mode == 1 {
        return minus(x, y);
    }
    [false; 16]
}

// The record with other members up and active: it waits if it lost its last active member (Rule 7.12).
fn settled(s: AsRecord, ups: [bool; 16], acts: [bool; 16]) -> AsRecord
    ensures { result ≡ record_with s ups acts }
{
    let before = s.acts;
    let was = has_some(before);
    let now = has_some(acts);
    AsRecord {
        ups,
        acts,
        waiting: !now & (was | s.waiting),
        mode: s.mode,
    }
}

pub fn changed(s: AsRecord, k: Moved) -> AsRecord
    ensures { result ≡ after k.change s }
{
    let ups = s.ups;
    let acts = s.acts;
    let me = k.me;
    match k.change {
        Change::AspUp(_) => settled(s, plus(ups, me), minus(acts, me)),
        Change::AspDown(_) => settled(s, minus(ups, me), minus(acts, me)),
        Change::Deactivate(_) => settled(s, ups, minus(acts, me)),
        Change::Activate(_) => settled(s, ups, turn_on(acts, s.mode, me)),
        Change::Recover => AsRecord {
            ups,
            acts,
            waiting: false,
            mode: s.mode,
        },
    }
}

// Those whom the change overtakes.
// Kept: equal arms one by one; with `|` between them the goal returns-in-AspUp stays open (as in let_out).
pub fn overtaken_in(s: AsRecord, k: Moved) -> [bool; 16]
    ensures { result ≡ overtaken_in k.change s }
{
    let acts = s.acts;
    match k.change {
        Change::Activate(_) => overtake(acts, s.mode, k.me),
        Change::AspUp(_) => [false; 16],
        Change::AspDown(_) => [false; 16],
        Change::Deactivate(_) => [false; 16],
        Change::Recover => [false; 16],
    }
}

// ---- the Notifies

// The state of the AS: 0 down, 2 inactive, 3 active, 4 pending.
pub fn state_in(s: AsRecord) -> u32
    ensures { result ≡ state_in s }
{
    let acts = s.acts;
    if has_some(acts) {
        return 3;
    }
    if s.waiting {
        return 4;
    }
    let ups = s.ups;
    if has_some(ups) {
        return 2;
    }
    0
}

// The new state to every member that is up, if it is another and not down (Rule 8.5).
fn announce(s: AsRecord, t: AsRecord, a: usize, words: &mut [u32], n: usize) -> usize
    requires { (a < 16) × (n * 4 + 64 ≤ length words.old) }
    ensures { Written words.old n (announced s t a) words.new result }
{
    let x = state_in(s);
    let y = state_in(t);
    if y == 0 {
        return n;
    }
    if x == y {
        return n;
    }
    let ups = t.ups;
    rules_action::to_all(
        ups,
        rules_action::MGMT_NOTIFY,
        a as u32,
        rules_action::AS_STATE + y,
        words,
        n,
    )
}

// To those overtaken that another is active (Rule 7.11), or else the new state.
pub fn speak(
    lost: [bool; 16],
    s: AsRecord,
    t: AsRecord,
    a: usize,
    words: &mut [u32],
    n: usize,
) -> usize
    requires { (a < 16) × (n * 4 + 64 ≤ length words.old) }
    ensures { Written words.old n (spoken lost s t a) words.new result }
{
    if has_some(lost) {
        return rules_action::to_all(
            lost,
            rules_action::MGMT_NOTIFY,
            a as u32,
            rules_action::OTHER_ACTIVE,
            words,
            n,
        );
    }
    announce(s, t, a, words, n)
}

// ---- the units held

// Each of AS a's n units to ASP p, the oldest first (Rule 7.25), from place m of the list on; and the next
// place.
fn units_out(p: usize, n: u8, id: &[u32; 128], a: usize, words: &mut [u32], m: usize) -> usize
    requires { (p < 16) × (a < 16) × (m * 4 + 32 ≤ length words.old) }
    ensures { Written words.old m (units_out p n id.now a) words.new result }
{
    let held = usize::from(n);
    let mut at = m;
    for k in 0..8usize {
        at = rules_action::put_if(
            words,
            at,
            k < held,
            Action {
                to: p as u32,
                classtype: rules_action::USER_DATA,
                subject: id[a * 8 + k],
                value: 0,
                unit: (a * 8 + k) as u32,
            },
        );
    }
    at
}

// The units of AS a go out to the ASP that becomes active.
pub fn let_out(
    k: Moved,
    count: &[u8; 16],
    id: &[u32; 128],
    a: usize,
    words: &mut [u32],
    n: usize,
) -> usize
    requires { (a < 16) × (n * 4 + 32 ≤ length words.old) }
    ensures { Written words.old n (let_out k.change (number_at count.now a) id.now a) words.new result }
{
    match k.change {
        Change::Activate(p) => units_out(p, count[a], id, a, words, n),
        Change::AspUp(_) => n,
        Change::AspDown(_) => n,
        Change::Deactivate(_) => n,
        Change::Recover => n,
    }
}
