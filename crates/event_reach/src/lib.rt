// The ASes that an event may look into and change (Rule 9.1), as a flag for each.
#![tactic(auto)]

ghost use Rattle.std.specs.Prelude.{◌≡◌, ◌&&◌, ◌<◌, eqb, ltb};
ghost use Rattle.laws.specs.Columns.{flag_at, number_at, tabulate};
ghost use Rattle.codec_wire.specs.Walk.{walk};
ghost use Rattle.state_ranges.specs.Inner.Of.{owned_of};
ghost use Rattle.state_ranges.specs.Inner.Owners.{Looked};
ghost use Rattle.state_sets.specs.Inner.Members.{members};
ghost use Rattle.event_traffic.specs.Inner.Named.{with_par, good_pars};
ghost use Rattle.rules_event.specs.Event.{message, lost, recovery, link_up, link_down, link_message};
ghost use Rattle.event_asked.specs.Happened.{happened, event_of};
ghost use Rattle.event_asked.specs.Inner.Ask.{AskFits};
ghost use Rattle.event_reach.specs.Reached.{reached};
ghost use Rattle.event_reach.specs.Inner.Rows.{owner_row, named_row, other_row, ask_row};

use codec_read::Reading;
use codec_wire::Step;
use event_asked::Ask;
use state_lookup::{Identifiers, Links};
use state_sets::AsSet;
use state_tables::Gateway;

// ---- owners

// The set, with the ASes that own a known identifier of a parameter.
fn owners_par(set: AsSet, far: &mut [u8; 128], t: u16, v: &[u8], links: Links) -> AsSet
    requires { Looked links.owner.now far.old (members set) }
    ensures { (members result ≡ with_par (members set) (owned_of links.entry) t v.now) × Looked links.entry.owner.now far.new (members result) }
{
    if t == 1 {
        return state_names::owners_of(set, far, v, false, links);
    }
    if t == 8 {
        return state_names::owners_of(set, far, v, true, links);
    }
    set
}

// The ASes of the set mine that own a known identifier of the message.
fn owners_good(s: &[u8], links: Links, mine: AsSet) -> [bool; 16]
    ensures { result ≡ good_pars (owned_of links.entry) (members mine) (walk s.now 8).pars }
{
    let mut far = [0u8; 128];
    let mut set = AsSet::empty();
    let mut at: usize = 8;
    loop {
        let w = codec_wire::step_at(s, at);
        let Step::Param { tag, len, next } = w else {
            return set.common(mine).flags();
        };
        let start = at + 4;
        let stop = at + len as usize;
        set = owners_par(set, &mut far, tag, &s[start..stop], links);
        at = next;
    }
}

// The owner of the link at l.
fn owner_at(links: Links, l: usize) -> [bool; 16]
    requires { l < links.ids.count }
    ensures { result ≡ tabulate 16 (eqb (number_at links.entry.owner.now l)) }
{
    event_asps::only(links.owner_at(l))
}

// The owner of the link with identifier x, if there is one.
fn owner_of(links: Links, x: u32) -> [bool; 16]
    ensures { result ≡ owner_row links.entry.ids.count links.entry.ids.iid.now links.entry.owner.now x }
{
    match links.ids.index_of(x) {
        Some(l) => owner_at(links, l),
        None => [false; 16],
    }
}

// ---- what is asked

// Active and Inactive: ids is 1 where identifiers are given.
fn named_row<'a>(
    s: &[u8],
    member: &'a [u8; 256],
    links: Links<'a>,
    p: usize,
    ids: u32,
) -> [bool; 16]
    requires { p < 16 }
    ensures { result ≡ named_row links.entry.ids.count member.now links.entry.ids.iid.now links.entry.owner.now p s.now ids }
{
    if ids == 1 {
        return owners_good(s, links, event_asps::ases_of(member, p));
    }
    rules_servers::column_of(member, p)
}

// A message of an ASP that is neither Up, Down, Active nor Inactive: error says that it is an Error.
fn other_row(error: bool, links: Links, r: Reading) -> [bool; 16]
    ensures { result ≡ other_row links.entry.ids.count links.entry.ids.iid.now links.entry.owner.now error r }
{
    if error {
        return [false; 16];
    }
    if r.code == 0 {
        if r.class == 6 {
            return owner_of(links, r.id);
        }
        return [false; 16];
    }
    [false; 16]
}

// Every event (Rules 9.2, 9.3).
fn row_of<'a>(ask: Ask, msg: &[u8], member: &'a [u8; 256], links: Links<'a>) -> [bool; 16]
    requires { AskFits links.ids.count links.ids.iid.now msg.now ask }
    ensures { result ≡ ask_row links.entry.ids.count member.now links.entry.ids.iid.now links.entry.owner.now msg.now ask }
{
    match ask {
        Ask::Up(p, _) => rules_servers::column_of(member, p),
        Ask::Down(p) => rules_servers::column_of(member, p),
        Ask::Traffic(p, r, _) => named_row(msg, member, links, p, r.ids),
        Ask::Other(_, r, error) => other_row(error, links, r),
        Ask::Lost(p) => rules_servers::column_of(member, p),
        Ask::Recovery(a) => event_asps::only(a),
        Ask::LinkUp(l) => owner_at(links, l),
        Ask::LinkDown(l) => owner_at(links, l),
        Ask::LinkMessage(r) => owner_of(links, r.id),
    }
}

// The row without the places at and beyond the number of ASes.
fn within(ases: usize, row: [bool; 16]) -> [bool; 16]
    ensures { result ≡ tabulate 16 (λ a. ltb a ases && flag_at row a) }
{
    let mut r = [false; 16];
    for a in 0..16usize {
        r[a] = (a < ases) & row[a];
    }
    r
}

// ---- the entries

// An event by the number of its kind, its index and its message, where its list has `room` words.
pub fn of_event(g: Gateway, kind: u32, i: usize, msg: &[u8], room: usize, hold: usize) -> [bool; 16]
    ensures { result ≡ reached g (event_of (happened kind i msg.now) room hold) }
{
    let ask = event_asked::asked(kind, i, msg);
    let asps = g.asps;
    let ases = g.ases;
    let links = g.links;
    let sound = state_sound::is_sound(g);
    let at = event_asked::placed(sound, links, &g.iid, ask);
    let k = event_links::link_at(g, at.index);
    match event_asked::refused(sound, asps, ases, at.there, k, ask, hold, room) {
        Err(_) => [false; 16],
        Ok(()) => {
            let ids = Identifiers {
                iid: &g.iid,
                count: usize::from(links),
            };
            let plan = Links {
                ids,
                owner: &g.owner,
            };
            let row = row_of(ask, msg, &g.member, plan);
            within(usize::from(ases), row)
        }
    }
}

// Kept: docs/STATEMENTS.md names these six.

// A message of ASP p.
pub fn of_message(g: Gateway, p: usize, msg: &[u8], room: usize, hold: usize) -> [bool; 16]
    ensures { result ≡ reached g (event_of (message p msg.now) room hold) }
{
    of_event(g, event_asked::MESSAGE, p, msg, room, hold)
}

// The association of ASP p is lost.
pub fn of_lost(g: Gateway, p: usize, room: usize, hold: usize) -> [bool; 16]
    ensures { result ≡ reached g (event_of (lost p) room hold) }
{
    of_event(g, event_asked::LOST, p, &[0; 1], room, hold)
}

// The recovery time of AS a is over.
pub fn of_recovery(g: Gateway, a: usize, room: usize, hold: usize) -> [bool; 16]
    ensures { result ≡ reached g (event_of (recovery a) room hold) }
{
    of_event(g, event_asked::RECOVERY, a, &[0; 1], room, hold)
}

// The link at index l is up.
pub fn of_link_up(g: Gateway, l: usize, room: usize, hold: usize) -> [bool; 16]
    ensures { result ≡ reached g (event_of (link_up l) room hold) }
{
    of_event(g, event_asked::LINK_UP, l, &[0; 1], room, hold)
}

// The link at index l is down.
pub fn of_link_down(g: Gateway, l: usize, room: usize, hold: usize) -> [bool; 16]
    ensures { result ≡ reached g (event_of (link_down l) room hold) }
{
    of_event(g, event_asked::LINK_DOWN, l, &[0; 1], room, hold)
}

// A message of the link side.
pub fn of_link_message(g: Gateway, msg: &[u8], room: usize, hold: usize) -> [bool; 16]
    ensures { result ≡ reached g (event_of (link_message msg.now) room hold) }
{
    of_event(g, event_asked::LINK_MESSAGE, 0, msg, room, hold)
}
