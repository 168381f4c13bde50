// Every event: what is asked is refused, or decided and done.
#![tactic(auto)]

ghost use Rattle.std.specs.Prelude.{◌≡◌, cond, ◌+◌, ◌*◌, ◌<◌, ◌≤◌, eqb, length, take, drop};
ghost use Rattle.laws.specs.Columns.{number_at};
ghost use Rattle.codec_put.specs.Bytes.{overlay};
ghost use Rattle.rules_action.specs.Words.{to_all};
ghost use Rattle.rules_action.specs.Inner.Words.{Written};
ghost use Rattle.state_lookup.specs.Inner.Table.{Table};
ghost use Rattle.state_tables.specs.Sound.{is_sound};
ghost use Rattle.state_tables.specs.State.{gateway_of, units_of};
ghost use Rattle.rules_servers.specs.Changed.{units_with};
ghost use Rattle.rules_event.specs.Entry.{MeetsRules, Runs};
ghost use Rattle.rules_event.specs.Records.{link_at, owner_of, asp_at};
ghost use Rattle.rules_event.specs.Inner.Decision.{replies_in};
ghost use Rattle.event_decision.specs.Inner.Decides.{asp_of, DecidesOn};
ghost use Rattle.event_asked.specs.Happened.{happened, event_of, event};
ghost use Rattle.event_asked.specs.Inner.Ask.{ask_effect, AskFits};
ghost use Rattle.event_asked.specs.Inner.Place.{asp_in, asp_named, Named};
ghost use Rattle.event_units.specs.Inner.Going.{going};
ghost use Rattle.event_run.specs.At.{outcome_of};
ghost use Rattle.event_run.specs.Inner.Columns.{AskColumns, state_in};
ghost use Rattle.event_run.specs.Inner.Decided.{Decided};
ghost use Rattle.event_run.specs.Inner.Performed.{Changed, units_left};

use event_asked::{Ask, EventRefusal, Place};
use rules_event::{Asp, Decision, Link, Owner, Replies, Told};
use rules_server::{Arrival, Change, has_some};
use state_lookup::{Identifiers, Links};

// ---- what is decided

// The state that an event finds, where its columns lie.
#[derive(Clone, Copy)]
struct Columns<'a> {
    asps: u8,
    ases: u8,
    links: u8,
    spare: u8,
    aspid: &'a [u32; 16],
    up: &'a [u8; 16],
    member: &'a [u8; 256],
    active: &'a [u8; 256],
    mode: &'a [u8; 16],
    waiting: &'a [u8; 16],
    iid: &'a [u32; 128],
    owner: &'a [u8; 128],
    state: &'a [u8; 128],
    highspeed: &'a [u8; 128],
    wholelists: &'a [u8; 16],
    count: &'a [u8; 16],
    tag: &'a [u16; 128],
    len: &'a [u16; 128],
    marked: &'a [u16; 128],
    id: &'a [u32; 128],
    correlation: &'a [u32; 128],
}

impl<'a> Columns<'a> {
    fn is_sound(self) -> bool
        ensures { result ≡ is_sound (state_in self.entry) }
    {
        state_sound::sound_of(
            self.asps,
            self.ases,
            self.links,
            self.spare,
            self.aspid,
            self.up,
            self.member,
            self.active,
            self.mode,
            self.waiting,
            self.iid,
            self.owner,
            self.state,
            self.highspeed,
            self.wholelists,
            self.count,
            self.tag,
            self.len,
            self.marked,
            self.id,
            self.correlation,
        )
    }

    // The link at l.
    fn link_at(self, l: usize) -> Link
        requires { l < 128 }
        ensures { result ≡ link_at (state_in self.entry) l }
    {
        Link {
            id: self.iid[l],
            owner: self.owner[l],
            state: self.state[l],
            highspeed: self.highspeed[l],
        }
    }

    // What is asked of AS a as an owner of links.
    fn owner_of(self, a: u8) -> Owner
        requires { a < 16 }
        ensures { result ≡ owner_of (state_in self.entry) a }
    {
        let a = usize::from(a);
        Owner {
            mode: self.mode[a],
            waiting: self.waiting[a],
            held: usize::from(self.count[a]),
        }
    }

    // ASP p.
    fn asp_at(self, p: usize) -> Asp
        requires { p < 16 }
        ensures { result ≡ asp_at (state_in self.entry) p }
    {
        Asp {
            id: self.aspid[p],
            up: self.up[p],
            wholelists: self.wholelists[p],
        }
    }
}

// What the event does (Rule 7.1), decided. `at` has the places of the link that it names, which is k, and of
// the ASP that it comes from, which is s; o is the AS that owns k.
fn decided(ask: Ask, msg: &[u8], at: Place, k: Link, o: Owner, s: Asp, columns: Columns) -> Decision
    requires { Table columns.iid.now columns.owner.now columns.links × AskFits columns.links columns.iid.now msg.now ask × Named columns.links columns.iid.now ask at.there at.index × (k.owner < 16) × (at.asp ≡ asp_in (asp_named ask)) }
    ensures { DecidesOn (AskColumns at.index k o at.asp s columns.entry.links columns.entry.member.now columns.entry.active.now columns.entry.mode.now columns.entry.iid.now columns.entry.owner.now) (λ g. ask_effect g msg.now ask) result }
{
    let active = columns.active;
    let member = columns.member;
    match ask {
        Ask::Up(p, r) => event_asps::up_work(s, member, active, p, r),
        Ask::Down(p) => event_asps::down_work(member, p),
        Ask::Traffic(p, r, on) => {
            let ids = Identifiers {
                iid: columns.iid,
                count: usize::from(columns.links),
            };
            let plan = Links {
                ids,
                owner: columns.owner,
            };
            event_traffic::traffic_work(on, msg, s, member, columns.mode, plan, p, r)
        }
        Ask::Other(p, r, error) => {
            let t = event_links::sender_of(s, member, active, usize::from(k.owner), p);
            event_others::other_work(at.there, p, at.index, k, t, error, r)
        }
        Ask::Lost(p) => event_asps::lost_work(member, p),
        Ask::Recovery(a) => event_asps::recovery_work(a),
        Ask::LinkUp(_) => event_links::link_turns(true, active, at.index, k, o),
        Ask::LinkDown(_) => event_links::link_turns(false, active, at.index, k, o),
        Ask::LinkMessage(r) => event_links::link_message(msg, active, k, o, r),
    }
}

// What is asked of the state is refused, or decided: the link that the event names, the AS that owns it and
// the ASP that the event comes from are read here, once.
fn decide(
    columns: Columns,
    kind: u32,
    i: usize,
    msg: &[u8],
    size: usize,
    room: usize,
) -> Result<Decision, EventRefusal>
    ensures { Decided (state_in columns.entry) kind i msg.now size room result }
{
    let ask = event_asked::asked(kind, i, msg);
    let sound = columns.is_sound();
    let at = event_asked::placed(sound, columns.links, columns.iid, ask);
    let k = columns.link_at(at.index);
    event_asked::refused(
        sound,
        columns.asps,
        columns.ases,
        at.there,
        k,
        ask,
        size,
        room,
    )?;
    let o = columns.owner_of(k.owner);
    let s = columns.asp_at(at.asp);
    Ok(decided(ask, msg, at, k, o, s, columns))
}

// ---- what is done
// Kept: the columns that change are parameters, since a struct of `&mut` needs ghost names in each clause.

// The actions that come first, one after the other.
fn say(replies: Replies, words: &mut [u32]) -> usize
    requires { 8 ≤ length words.old }
    ensures { Written words.old 0 (replies_in replies) words.new result }
{
    match replies {
        Replies::Nothing => 0,
        Replies::One(a) => {
            rules_action::put(words, 0, a);
            1
        }
        Replies::Two(a, b) => {
            rules_action::put(words, 0, a);
            rules_action::put(words, 1, b);
            2
        }
    }
}

// An action to several ASPs.
fn spread(told: Told, words: &mut [u32]) -> usize
    requires { 64 ≤ length words.old }
    ensures { Written words.old 0 (to_all told.who told.classtype told.subject 0) words.new result }
{
    rules_action::to_all(told.who, told.classtype, told.subject, 0, words, 0)
}

// The change in the ASes of `who`, behind n actions; and who is up after it.
fn enact<'a>(
    change: Change,
    who: [bool; 16],
    up: &mut [u8; 16],
    member: &'a [u8; 256],
    mode: &'a [u8; 16],
    count: &'a [u8; 16],
    id: &'a [u32; 128],
    active: &mut [u8; 256],
    waiting: &mut [u8; 16],
    words: &mut [u32],
    n: usize,
) -> usize
    requires { (n * 4 + 1536 ≤ length words.old) × (asp_of change < 16) }
    ensures { Changed change who up.old member.now mode.now count.now id.now active.old waiting.old words.old n up.new active.new waiting.new words.new result }
{
    let m = rules_servers::run(
        up, member, mode, count, id, active, waiting, change, who, words, n,
    );
    rules_servers::mark(up, change);
    m
}

// The units that ASes of `who` let go leave their columns; `waiting` is the column after the event.
fn let_go(
    who: [bool; 16],
    waiting: &[u8; 16],
    count: &mut [u8; 16],
    tag: &mut [u16; 128],
    len: &mut [u16; 128],
    marked: &mut [u16; 128],
    id: &mut [u32; 128],
    correlation: &mut [u32; 128],
)
    ensures { units_of count.new tag.new len.new marked.new id.new correlation.new ≡ units_left (going count.old who waiting.now) (units_of count.old tag.old len.old marked.old id.old correlation.old) }
{
    let go = event_units::goes(count, who, waiting);
    if has_some(go) {
        event_units::clear_counts(count, go);
        event_units::clear_rows(tag, 0, go);
        event_units::clear_rows(len, 0, go);
        event_units::clear_rows(marked, 0, go);
        event_units::clear_rows(id, 0, go);
        event_units::clear_rows(correlation, 0, go);
    }
}

// ---- the hold

// The bytes of a unit that comes in, laid over its place; `size` is the length of the hold, and where it is
// not lent whole nothing is written.
fn lay(msg: &[u8], start: usize, n: usize, hold: &mut [u8], size: usize, at: usize)
    requires { (start + n ≤ length msg.now) × (at + n ≤ size) }
    ensures { hold.new ≡ cond (eqb (length hold.old) size) (overlay hold.old at (take n (drop start msg.now))) hold.old }
{
    if hold.len() == size {
        codec_put::put_bytes(hold, at, &msg[start..start + n]);
    }
}

// A unit that comes in for AS a, behind those that it has.
fn take_in(
    a: usize,
    unit: Arrival,
    count: &mut [u8; 16],
    tag: &mut [u16; 128],
    len: &mut [u16; 128],
    marked: &mut [u16; 128],
    id: &mut [u32; 128],
    correlation: &mut [u32; 128],
)
    requires { (a < 16) × (number_at count.old a < 8) }
    ensures { units_of count.new tag.new len.new marked.new id.new correlation.new ≡ units_with (units_of count.old tag.old len.old marked.old id.old correlation.old) a unit }
{
    let k = usize::from(count[a]);
    let at = a * 8 + k;
    tag[at] = unit.tag;
    len[at] = unit.length;
    marked[at] = unit.marked;
    id[at] = unit.id;
    correlation[at] = unit.correlation;
    count[a] = (k + 1) as u8;
}

// ---- the entry

// What an event hands back beside the columns: a refusal, or 0, and the number of actions written.
// Kept: the C interface (include/m2ua.h) has this struct.
#[repr(C)]
#[derive(Drop)]
pub struct Done {
    pub refusal: u32,
    pub count: usize,
}

// An event that is not refused.
fn accepted(count: usize) -> Done
    ensures { result ≡ record { refusal = 0; count = count } }
{
    Done { refusal: 0, count }
}

// Every event (Rule 6.2), on the state where it lies: the number of its kind (`event_asked::MESSAGE` ..), the
// index and the message that it has; any other number is refused (`happened`). The state's columns are lent,
// those that events change as `&mut`. `size` is the length of the hold; a caller that only wants the actions
// lends no part of it (`Runs`).
// Kept: the C interface (include/m2ua.h) has these columns.
pub fn run<'a>(
    asps: u8,
    ases: u8,
    links: u8,
    spare: u8,
    aspid: &'a [u32; 16],
    up: &mut [u8; 16],
    member: &'a [u8; 256],
    active: &mut [u8; 256],
    mode: &'a [u8; 16],
    waiting: &mut [u8; 16],
    iid: &'a [u32; 128],
    owner: &'a [u8; 128],
    state: &mut [u8; 128],
    highspeed: &'a [u8; 128],
    wholelists: &'a [u8; 16],
    count: &mut [u8; 16],
    tag: &mut [u16; 128],
    len: &mut [u16; 128],
    marked: &mut [u16; 128],
    id: &mut [u32; 128],
    correlation: &mut [u32; 128],
    kind: u32,
    i: usize,
    msg: &[u8],
    hold: &mut [u8],
    size: usize,
    words: &mut [u32],
) -> Done
    ensures { Runs (gateway_of asps ases links spare aspid.now up.old member.now active.old mode.now waiting.old iid.now owner.now state.old highspeed.now wholelists.now (units_of count.old tag.old len.old marked.old id.old correlation.old)) (event_of (happened kind i msg.now) (length words.old) size) words.old words.new hold.old hold.new (outcome_of result (gateway_of asps ases links spare aspid.now up.new member.now active.new mode.now waiting.new iid.now owner.now state.new highspeed.now wholelists.now (units_of count.new tag.new len.new marked.new id.new correlation.new))) }
{
    let columns = Columns {
        asps,
        ases,
        links,
        spare,
        aspid,
        up,
        member,
        active,
        mode,
        waiting,
        iid,
        owner,
        state,
        highspeed,
        wholelists,
        count,
        tag,
        len,
        marked,
        id,
        correlation,
    };
    match decide(columns, kind, i, msg, size, words.len()) {
        Err(refusal) => Done {
            refusal: u32::from(refusal),
            count: 0,
        },
        Ok(Decision::Send(replies)) => accepted(say(replies, words)),
        Ok(
            Decision::Turn {
                link,
                state: new,
                action,
            },
        ) => {
            state[link] = new;
            accepted(say(Replies::One(action), words))
        }
        Ok(Decision::Spread(told)) => accepted(spread(told, words)),
        Ok(
            Decision::TurnSpread {
                link,
                state: new,
                told,
            },
        ) => {
            state[link] = new;
            accepted(spread(told, words))
        }
        Ok(
            Decision::ChangeIn {
                replies,
                change,
                who,
            },
        ) => {
            let n = say(replies, words);
            let m = enact(
                change, who, up, member, mode, count, id, active, waiting, words, n,
            );
            let_go(who, waiting, count, tag, len, marked, id, correlation);
            accepted(m)
        }
        Ok(Decision::TakeIn { owner: a, unit }) => {
            let k = usize::from(count[a]);
            take_in(a, unit, count, tag, len, marked, id, correlation);
            lay(
                msg,
                unit.start,
                usize::from(unit.length) - 4,
                hold,
                size,
                a * 2184 + k * 273,
            );
            accepted(0)
        }
    }
}

// The entry for hosts: the hold is lent whole, so no unit is taken in without its bytes.
pub fn m2ua_event_at<'a>(
    asps: u8,
    ases: u8,
    links: u8,
    spare: u8,
    aspid: &'a [u32; 16],
    up: &mut [u8; 16],
    member: &'a [u8; 256],
    active: &mut [u8; 256],
    mode: &'a [u8; 16],
    waiting: &mut [u8; 16],
    iid: &'a [u32; 128],
    owner: &'a [u8; 128],
    state: &mut [u8; 128],
    highspeed: &'a [u8; 128],
    wholelists: &'a [u8; 16],
    count: &mut [u8; 16],
    tag: &mut [u16; 128],
    len: &mut [u16; 128],
    marked: &mut [u16; 128],
    id: &mut [u32; 128],
    correlation: &mut [u32; 128],
    kind: u32,
    i: usize,
    msg: &[u8],
    hold: &mut [u8],
    words: &mut [u32],
) -> Done
    ensures { MeetsRules (gateway_of asps ases links spare aspid.now up.old member.now active.old mode.now waiting.old iid.now owner.now state.old highspeed.now wholelists.now (units_of count.old tag.old len.old marked.old id.old correlation.old)) (event (happened kind i msg.now) words.old hold.old) words.old words.new hold.old hold.new (outcome_of result (gateway_of asps ases links spare aspid.now up.new member.now active.new mode.now waiting.new iid.now owner.now state.new highspeed.now wholelists.now (units_of count.new tag.new len.new marked.new id.new correlation.new))) }
{
    let size = hold.len();
    run(
        asps,
        ases,
        links,
        spare,
        aspid,
        up,
        member,
        active,
        mode,
        waiting,
        iid,
        owner,
        state,
        highspeed,
        wholelists,
        count,
        tag,
        len,
        marked,
        id,
        correlation,
        kind,
        i,
        msg,
        hold,
        size,
        words,
    )
}
