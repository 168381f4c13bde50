// What an event asks of the gateway, its message read, and whether it is refused: for the events and for
// reach alike.
#![tactic(auto)]

ghost use Rattle.std.specs.Prelude.{◌≡◌, true, cond, ◌<◌, ◌≤◌};
ghost use Rattle.rules_event.specs.Rules.{is_error, refusal_of};
ghost use Rattle.event_others.specs.Inner.Other.{type_in};
ghost use Rattle.state_tables.specs.Sound.{ascends};
ghost use Rattle.rules_event.specs.Event.{message, link_message, lending};
ghost use Rattle.event_asked.specs.Inner.Ask.{ask_of, AsksKind, Asks};
ghost use Rattle.event_asked.specs.Inner.Kind.{kind_of, number_of, said};
ghost use Rattle.event_asked.specs.Inner.Refusal.{refusal_number, refusal_code};
ghost use Rattle.event_links.specs.Inner.Records.{Placed, link_in};
ghost use Rattle.event_asked.specs.Inner.Place.{asp_in, asp_named, known_in, Named};

use codec_read::Reading;
use rules_event::Link;
use state_lookup::Identifiers;

// The six kinds of event.
#[derive(Clone, Copy)]
pub enum EventKind {
    Message,
    Lost,
    Recovery,
    LinkUp,
    LinkDown,
    LinkMessage,
}

// Their numbers, as hosts have them (include/m2ua.h).
pub const MESSAGE: u32 = 0;

pub const LOST: u32 = 1;

pub const RECOVERY: u32 = 2;

pub const LINK_UP: u32 = 3;

pub const LINK_DOWN: u32 = 4;

pub const LINK_MESSAGE: u32 = 5;

impl EventKind {
    // The kind that has a number.
    #[tactic(auto, unfolding(crate::specs::Inner::Kind::kind_of))]
    pub fn of_number(number: u32) -> Option<EventKind>
        ensures { result ≡ kind_of number }
    {
        match number {
            MESSAGE => Some(EventKind::Message),
            LOST => Some(EventKind::Lost),
            RECOVERY => Some(EventKind::Recovery),
            LINK_UP => Some(EventKind::LinkUp),
            LINK_DOWN => Some(EventKind::LinkDown),
            LINK_MESSAGE => Some(EventKind::LinkMessage),
            _ => None,
        }
    }
}

impl From<EventKind> for u32 {
    fn from(kind: EventKind) -> u32
        ensures { result ≡ number_of kind }
    {
        match kind {
            EventKind::Message => MESSAGE,
            EventKind::Lost => LOST,
            EventKind::Recovery => RECOVERY,
            EventKind::LinkUp => LINK_UP,
            EventKind::LinkDown => LINK_DOWN,
            EventKind::LinkMessage => LINK_MESSAGE,
        }
    }
}

// The bytes of a hold (Rule 5.22), and the fewest words of a list (Rule 6.6).
pub const HOLD_BYTES: usize = 34944;

pub const LEAST_ROOM: usize = 1544;

// What an event asks of the gateway, its message read.
#[derive(Clone, Copy)]
pub enum Ask {
    Up(usize, Reading),
    Down(usize),
    // Active, or Inactive
    Traffic(usize, Reading, bool),
    // any other message of an ASP; whether it is an Error
    Other(usize, Reading, bool),
    Lost(usize),
    Recovery(usize),
    LinkUp(usize),
    LinkDown(usize),
    LinkMessage(Reading),
}

// ---- refusals

// Why an event is refused.
#[derive(Clone, Copy)]
pub enum EventRefusal {
    // the state is not sound
    NotSound,
    // what the event names is not in the plan
    NotInPlan,
    // the hold that is lent has another length
    HoldLength,
    // the list that is lent is too short
    ShortList,
}

// Its number, as hosts have it (Rules 6.3 to 6.6).
impl From<EventRefusal> for u32 {
    fn from(refusal: EventRefusal) -> u32
        ensures { result ≡ refusal_number refusal }
    {
        match refusal {
            EventRefusal::NotSound => 105,
            EventRefusal::NotInPlan => 102,
            EventRefusal::HoldLength => 106,
            EventRefusal::ShortList => 101,
        }
    }
}

// The places of what an event names: whether there is a link that it names, that link's index, or 0, and the
// index of the ASP that it comes from, or 0.
// Kept: no Option, since the rows at index 0 are read where there is none, so that reading asks nothing.
#[derive(Drop)]
pub struct Place {
    pub there: bool,
    pub index: usize,
    pub asp: usize,
}

// The index of an ASP, where there is such a place.
#[tactic(auto, unfolding(crate::specs::Inner::Place::asp_in))]
fn asp_in(p: usize) -> usize
    ensures { result ≡ asp_in p }
{
    if p < 16 { p } else { 0 }
}

fn place_at(l: usize, links: usize, asp: usize) -> Place
    requires { links ≤ 128 }
    ensures { Placed links l result.there result.index × (result.asp ≡ asp) }
{
    if l < links {
        return Place {
            there: true,
            index: l,
            asp: asp,
        };
    }
    Place {
        there: false,
        index: 0,
        asp: asp,
    }
}

// The link that a message names: only one of class 6 names one.
fn place_in(iid: &[u32; 128], links: usize, r: Reading, asp: usize) -> Place
    requires { (links ≤ 128) × (ascends iid.now links ≡ true) }
    ensures { Placed links (link_in links iid.now r) result.there result.index × (result.asp ≡ asp) }
{
    if r.class == 6 {
        let ids = Identifiers { iid, count: links };
        return place_at(ids.index_of(r.id).unwrap_or(links), links, asp);
    }
    place_at(links, links, asp)
}

#[tactic(auto, unfolding(crate::specs::Inner::Place::asp_in))]
fn place_by(iid: &[u32; 128], links: usize, ask: Ask) -> Place
    requires { (links ≤ 128) × (ascends iid.now links ≡ true) }
    ensures { Named links iid.now ask result.there result.index × (result.asp ≡ asp_in (asp_named ask)) }
{
    match ask {
        Ask::Up(p, _) => place_at(links, links, asp_in(p)),
        Ask::Down(p) => place_at(links, links, asp_in(p)),
        Ask::Traffic(p, _, _) => place_at(links, links, asp_in(p)),
        Ask::Other(p, r, _) => place_in(iid, links, r, asp_in(p)),
        Ask::Lost(p) => place_at(links, links, asp_in(p)),
        Ask::Recovery(_) => place_at(links, links, 0),
        Ask::LinkUp(l) => place_at(l, links, 0),
        Ask::LinkDown(l) => place_at(l, links, 0),
        Ask::LinkMessage(r) => place_in(iid, links, r, 0),
    }
}

// The one place where a link's identifier is looked up; only where the state is sound.
#[tactic(auto, using(crate::specs::Inner::Place::asp_small))]
pub fn placed(sound: bool, links: u8, iid: &[u32; 128], ask: Ask) -> Place
    requires { sound ≡ true → (links ≤ 128) × (ascends iid.now links ≡ true) }
    ensures { (result.index < 128) × (sound ≡ true → Named links iid.now ask result.there result.index) × (result.asp < 16) × (sound ≡ true → result.asp ≡ asp_in (asp_named ask)) }
{
    if !sound {
        return Place {
            there: false,
            index: 0,
            asp: 0,
        };
    }
    place_by(iid, usize::from(links), ask)
}

// What an event names is in the plan: there and k are the link, where it names one.
fn is_known(ask: Ask, asps: usize, ases: usize, there: bool, k: Link) -> bool
    ensures { result ≡ known_in asps ases there k ask }
{
    match ask {
        Ask::Up(p, _) => p < asps,
        Ask::Down(p) => p < asps,
        Ask::Traffic(p, _, _) => p < asps,
        Ask::Other(p, _, _) => p < asps,
        Ask::Lost(p) => p < asps,
        Ask::Recovery(a) => a < ases,
        Ask::LinkUp(_) => there,
        Ask::LinkDown(_) => there,
        Ask::LinkMessage(r) => event_links::passes(there, k, r),
    }
}

// Whether an event is refused, in the order of Rule 6.3: `sound` says that the state is, `hold` and `room`
// are the lengths of what is lent.
#[tactic(auto, unfolding(rules_event::specs::Rules::refusal_of))]
pub fn refused(
    sound: bool,
    asps: u8,
    ases: u8,
    there: bool,
    k: Link,
    ask: Ask,
    hold: usize,
    room: usize,
) -> Result<(), EventRefusal>
    ensures { refusal_code result ≡ refusal_of sound (known_in asps ases there k ask) (lending room hold) }
{
    if !sound {
        return Err(EventRefusal::NotSound);
    }
    if !is_known(ask, usize::from(asps), usize::from(ases), there, k) {
        return Err(EventRefusal::NotInPlan);
    }
    if hold != HOLD_BYTES {
        return Err(EventRefusal::HoldLength);
    }
    if room < LEAST_ROOM {
        return Err(EventRefusal::ShortList);
    }
    Ok(())
}

// ---- what is asked

// The message of ASP p, by its class and type.
#[tactic(auto, unfolding(crate::specs::Inner::Ask::ask_of, event_others::specs::Inner::Other::type_in))]
fn asp_message(p: usize, msg: &[u8], read: Reading) -> Ask
    requires { (read.class < 256) × (read.msgtype < 256) }
    ensures { result ≡ ask_of p (type_in (is_error msg.now) read) (is_error msg.now) read }
{
    let error = event_others::is_error(msg);
    if error | (read.code != 0) {
        return Ask::Other(p, read, error);
    }
    match read.class * 256 + read.msgtype {
        rules_action::ASP_UP => Ask::Up(p, read),
        rules_action::ASP_DOWN => Ask::Down(p),
        rules_action::ASP_ACTIVE => Ask::Traffic(p, read, true),
        rules_action::ASP_INACTIVE => Ask::Traffic(p, read, false),
        _ => Ask::Other(p, read, error),
    }
}

// An event that has a message: of the link side, or of ASP p. Read in this one place, the reader is compiled
// into it.
fn ask_message(link_side: bool, p: usize, msg: &[u8]) -> Ask
    ensures { AsksKind (cond link_side (link_message msg.now) (message p msg.now)) msg.now result }
{
    let read = codec_read::read(msg);
    if link_side {
        return Ask::LinkMessage(read);
    }
    asp_message(p, msg, read)
}

// An event of a kind, with the index and the message that it has.
fn ask_kind(kind: EventKind, i: usize, msg: &[u8]) -> Ask
    ensures { AsksKind (said kind i msg.now) msg.now result }
{
    match kind {
        EventKind::Message | EventKind::LinkMessage => {
            ask_message(matches!(kind, EventKind::LinkMessage), i, msg)
        }
        EventKind::Lost => Ask::Lost(i),
        EventKind::Recovery => Ask::Recovery(i),
        EventKind::LinkUp => Ask::LinkUp(i),
        EventKind::LinkDown => Ask::LinkDown(i),
    }
}

// An event by the number of its kind; any other number is that of an ASP that no plan has, which is refused
// (`happened`).
#[tactic(auto, using(crate::specs::Inner::Kind::happened_none))]
pub fn asked(kind: u32, i: usize, msg: &[u8]) -> Ask
    ensures { Asks kind i msg.now result }
{
    match EventKind::of_number(kind) {
        Some(known) => ask_kind(known, i, msg),
        None => Ask::Lost(65536),
    }
}
