// What the events of links do: class 6 messages of an ASP, link up, link down, messages of the link side.
#![tactic(auto)]

ghost use Rattle.std.specs.Prelude.{◌≡◌, true, cond, [], ◌+◌, ◌<◌, ◌≤◌};
ghost use Rattle.laws.specs.Columns.{tabulate};
ghost use Rattle.state_lookup.specs.Servers.{receives};
ghost use Rattle.rules_event.specs.Link.{establish, release, data_effect, can_have, link_effect, class_six_on, recipients_of, link_up_on, link_down_on, hold_effect, link_message_on};
ghost use Rattle.rules_event.specs.Records.{link_at};
ghost use Rattle.rules_event.specs.Effect.{take_in};
ghost use Rattle.rules_event.specs.Rules.{from_link};
ghost use Rattle.event_decision.specs.Inner.Decides.{Decides};
ghost use Rattle.event_links.specs.Inner.Records.{sender_from, pending_in};
ghost use Rattle.event_links.specs.Inner.Side.{passes_in, Fits};

use codec_read::{Found, Reading};
use rules_event::{Asp, Decision, Link, Owner, Sender};
use rules_server::{Arrival, has_some, row_of};
use state_tables::Gateway;

// The largest sequence number of a plain link (Rule 5.23).
const PLAIN_MOST: u32 = 127;

// The protocol data of a message that has none.
const NO_DATA: Found = Found {
    tag: 0,
    start: 0,
    length: 0,
};

// The most units that an AS holds (Rule 5.21).
const MOST_HELD: usize = 8;

// The states of a link (Rule 5.1).
// Kept: the C interface (include/m2ua.h) has states as numbers, and a message its type.
const IDLE: u8 = 0;

const STARTING: u8 = 1;

const IN_SERVICE: u8 = 2;

const STOPPING: u8 = 3;

// The types of class 6 that an ASP sends and that do something (Rules 7.15 to 7.19).
const DATA: u32 = 1;

const ESTABLISH: u32 = 2;

const RELEASE: u32 = 4;

const STATE: u32 = 7;

const RETRIEVAL: u32 = 10;

// ---- records (Rule 5.27)

// The link at l of a whole state, for who does not hold it for an event. (Who does reads the places itself: a
// state that is passed is copied.)
pub fn link_at(g: Gateway, l: usize) -> Link
    requires { l < 128 }
    ensures { result ≡ link_at g l }
{
    Link {
        id: g.iid[l],
        owner: g.owner[l],
        state: g.state[l],
        highspeed: g.highspeed[l],
    }
}

// ASP p, as AS a has it; s is p itself.
pub fn sender_of<'a>(
    s: Asp,
    member: &'a [u8; 256],
    active: &'a [u8; 256],
    a: usize,
    p: usize,
) -> Sender
    requires { (a < 16) × (p < 16) }
    ensures { result ≡ sender_from s member.now active.now a p }
{
    Sender {
        up: s.up,
        member: member[a * 16 + p],
        active: active[a * 16 + p],
    }
}

// ---- class 6 of an ASP: p is the ASP, x the identifier, k the link, at the index l

// Establish (Rule 7.15).
#[tactic(auto, using(event_decision::specs::Inner::Decides::decisions), unfolding(rules_event::specs::Link::establish))]
fn establish_work(p: usize, x: u32, l: usize, k: Link) -> Decision
    requires { (p < 16) × (l < 128) }
    ensures { Decides result (establish p x l k) }
{
    match k.state {
        IN_SERVICE => event_decision::reply(p, rules_action::ESTABLISH_CONFIRM, x, 0),
        STARTING => event_decision::nothing(),
        _ => event_decision::turn_and_send(l, STARTING, rules_action::ESTABLISH_REQUEST, x),
    }
}

// Release (Rule 7.16).
#[tactic(auto, using(event_decision::specs::Inner::Decides::decisions), unfolding(rules_event::specs::Link::release))]
fn release_work(p: usize, x: u32, l: usize, k: Link) -> Decision
    requires { (p < 16) × (l < 128) }
    ensures { Decides result (release p x l k) }
{
    match k.state {
        IDLE => event_decision::reply(p, rules_action::RELEASE_CONFIRM, x, 0),
        STOPPING => event_decision::nothing(),
        _ => event_decision::turn_and_send(l, STOPPING, rules_action::RELEASE_REQUEST, x),
    }
}

// Data (Rule 7.17).
#[tactic(auto, using(event_decision::specs::Inner::Decides::decisions), unfolding(rules_event::specs::Link::data_effect))]
fn data_work(p: usize, x: u32, k: Link, r: Reading) -> Decision
    requires { p < 16 }
    ensures { Decides result (data_effect p x k r) }
{
    if k.state != IN_SERVICE {
        return event_decision::error(p, 6);
    }
    if r.correlated == 1 {
        return event_decision::say_two(
            event_decision::to_link(rules_action::USER_DATA, x, 0),
            event_decision::to_asp(p, rules_action::DATA_ACK, x, r.correlation),
        );
    }
    event_decision::order(rules_action::USER_DATA, x, 0)
}

// A link can have the sequence number n (Rule 5.23).
#[tactic(auto, unfolding(rules_event::specs::Link::can_have))]
fn can_have(k: Link, n: u32) -> bool
    ensures { result ≡ can_have k n }
{
    (k.highspeed == 1) | (n <= PLAIN_MOST)
}

// A message of class 6 whose sender may send it, by its type (Rules 7.15 to 7.19).
#[tactic(auto, using(event_decision::specs::Inner::Decides::decisions), unfolding(rules_event::specs::Link::link_effect))]
fn link_work(p: usize, x: u32, l: usize, k: Link, r: Reading) -> Decision
    requires { (p < 16) × (l < 128) }
    ensures { Decides result (link_effect p x l k r) }
{
    match r.msgtype {
        DATA => data_work(p, x, k, r),
        ESTABLISH => establish_work(p, x, l, k),
        RELEASE => release_work(p, x, l, k),
        STATE => event_decision::order(rules_action::STATE_REQUEST, x, r.state),
        RETRIEVAL => event_decision::order(rules_action::RETRIEVAL_REQUEST, x, r.retrieval),
        _ => event_decision::nothing(),
    }
}

// A message of class 6 that ASPs send: the questions of Rule 7.14, of the link that it names; there says that
// there is such a link.
#[tactic(auto, using(event_decision::specs::Inner::Decides::decisions), unfolding(rules_event::specs::Link::class_six_on))]
pub fn class_six(there: bool, p: usize, l: usize, k: Link, s: Sender, r: Reading) -> Decision
    requires { (p < 16) × (l < 128) }
    ensures { Decides result (class_six_on there p l k s r) }
{
    if s.up != 1 {
        return event_decision::error(p, 6);
    }
    if !(there & (s.member == 1)) {
        return event_decision::error_two(p, r.id);
    }
    if s.active != 1 {
        return event_decision::error(p, 6);
    }
    if !can_have(k, r.sequence) {
        return event_decision::error(p, 17);
    }
    link_work(p, r.id, l, k, r)
}

// ---- to the recipients of the link at l

// Who gets a message of a link of AS a (Rule 5.15): only in load-share are the active members counted.
#[tactic(auto, using(crate::specs::Inner::Recipients::all_receive))]
fn receivers(active: &[u8; 256], mode: u8, a: usize, x: u32) -> [bool; 16]
    requires { a < 16 }
    ensures { result ≡ tabulate 16 (receives active.now mode a x) }
{
    if mode == 2 {
        return state_lookup::recipients(active, mode, a, x);
    }
    row_of(active, a)
}

// Those of the link k, whose owner is o.
#[tactic(auto, unfolding(rules_event::specs::Link::recipients_of))]
fn recipients_of(active: &[u8; 256], k: Link, o: Owner) -> [bool; 16]
    requires { k.owner < 16 }
    ensures { result ≡ recipients_of active.now k o }
{
    receivers(active, o.mode, usize::from(k.owner), k.id)
}

// Link up (Rule 7.20), where they are given.
#[tactic(auto, using(event_decision::specs::Inner::Decides::decisions), unfolding(rules_event::specs::Link::link_up_on, rules_event::specs::Link::to_recipients))]
fn up_at(l: usize, k: Link, who: [bool; 16]) -> Decision
    requires { l < 128 }
    ensures { Decides result (link_up_on l k who) }
{
    if k.state != STARTING {
        return event_decision::nothing();
    }
    event_decision::turn_spread(l, IN_SERVICE, who, rules_action::ESTABLISH_CONFIRM, k.id)
}

// Link down (Rule 7.21).
#[tactic(auto, using(event_decision::specs::Inner::Decides::decisions), unfolding(rules_event::specs::Link::link_down_on, rules_event::specs::Link::to_recipients))]
fn down_at(l: usize, k: Link, who: [bool; 16]) -> Decision
    requires { l < 128 }
    ensures { Decides result (link_down_on l k who) }
{
    let told = match k.state {
        IDLE => return event_decision::nothing(),
        STOPPING => rules_action::RELEASE_CONFIRM,
        _ => rules_action::RELEASE_INDICATION,
    };
    event_decision::turn_spread(l, IDLE, who, told, k.id)
}

// The link k at l goes up (Rule 7.20), or down (Rule 7.21).
#[tactic(auto, using(event_decision::specs::Inner::Decides::decisions))]
pub fn link_turns(up: bool, active: &[u8; 256], l: usize, k: Link, o: Owner) -> Decision
    requires { (k.owner < 16) × (l < 128) }
    ensures { Decides result (cond up (link_up_on l k (recipients_of active.now k o)) (link_down_on l k (recipients_of active.now k o))) }
{
    let who = recipients_of(active, k, o);
    if up {
        return up_at(l, k, who);
    }
    down_at(l, k, who)
}

// ---- a message of the link side

// The types of class 6 that the link side sends (Rule 6.5).
#[tactic(auto, unfolding(rules_event::specs::Rules::from_link))]
fn from_link(k: u32) -> bool
    ensures { result ≡ from_link k }
{
    matches!(k, 1 | 8 | 9 | 11..=14)
}

// A message of the link side that is not refused with 102 (Rule 6.5); there says that there is a link with
// its identifier, which is k.
#[tactic(auto, unfolding(crate::specs::Inner::Side::passes_in))]
pub fn passes(there: bool, k: Link, r: Reading) -> bool
    ensures { result ≡ passes_in there k r }
{
    let kind = from_link(r.msgtype);
    let fits = can_have(k, r.sequence);
    (r.code == 0) & ((r.class == 6) & (kind & (there & fits)))
}

// AS a, which is o, is pending (Rule 5.2).
#[tactic(auto, unfolding(crate::specs::Inner::Records::pending_in))]
fn is_pending(active: &[u8; 256], o: Owner, a: usize) -> bool
    requires { a < 16 }
    ensures { result ≡ pending_in active.now o a }
{
    (o.waiting == 1) && !has_some(row_of(active, a))
}

// A unit that comes in for AS a: d is its protocol data, r what else was read.
fn take_in(a: usize, d: Found, r: Reading) -> Decision
    requires { (a < 16) × (d.length ≤ 273) × (r.correlated ≤ 1) }
    ensures { Decides result (take_in a (record { tag = d.tag; length = d.length + 4; marked = r.correlated; id = r.id; correlation = r.correlation; start = d.start })) }
{
    event_decision::take_in(
        a,
        Arrival {
            tag: d.tag,
            length: (d.length + 4) as u16,
            marked: r.correlated as u16,
            id: r.id,
            correlation: r.correlation,
            start: d.start,
        },
    )
}

// It is held behind those that AS a has, and a ninth turned away (Rule 7.24).
#[tactic(auto, using(event_decision::specs::Inner::Decides::decisions), unfolding(rules_event::specs::Link::hold_effect, rules_event::specs::Link::arrival))]
fn hold_work(msg: &[u8], a: usize, o: Owner, r: Reading) -> Decision
    requires { (a < 16) × Fits msg.now r }
    ensures { Decides result (hold_effect msg.now r a o) }
{
    if MOST_HELD <= o.held {
        return event_decision::nothing();
    }
    take_in(a, codec_read::data_unit(msg).unwrap_or(NO_DATA), r)
}

// A message of the link side that is not refused (Rules 7.22, 7.24), of the link k, whose owner is o.
#[tactic(auto, using(event_decision::specs::Inner::Decides::decisions), unfolding(rules_event::specs::Link::link_message_on, rules_event::specs::Link::to_recipients))]
pub fn link_message(msg: &[u8], active: &[u8; 256], k: Link, o: Owner, r: Reading) -> Decision
    requires { (k.owner < 16) × (r.class ≡ 6) × (r.msgtype < 256) × (r.msgtype ≡ 1 → Fits msg.now r) }
    ensures { Decides result (link_message_on (pending_in active.now o k.owner) msg.now k o (recipients_of active.now k o) r) }
{
    let a = usize::from(k.owner);
    if (r.msgtype == DATA) & is_pending(active, o, a) {
        return hold_work(msg, a, o, r);
    }
    let who = recipients_of(active, k, o);
    event_decision::spread(who, r.class * 256 + r.msgtype, k.id)
}
