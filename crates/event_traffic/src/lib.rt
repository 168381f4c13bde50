// What Active and Inactive do.
#![tactic(auto)]

ghost use Rattle.std.specs.Prelude.{◌≡◌, cond, not, ◌&&◌, ◌||◌, [], ◌∷◌, ◌<◌, eqb};
ghost use Rattle.laws.specs.Below.{any_below};
ghost use Rattle.laws.specs.Columns.{flag_at, number_at};
ghost use Rattle.codec_wire.specs.Walk.{walk};
ghost use Rattle.rules_action.specs.Words.{action};
ghost use Rattle.state_ranges.specs.Named.{is_refused};
ghost use Rattle.state_ranges.specs.Inner.Names.{earlier, as_refused, Names};
ghost use Rattle.state_ranges.specs.Inner.Of.{refused_of, owned_of};
ghost use Rattle.state_ranges.specs.Inner.Owners.{Looked};
ghost use Rattle.state_sets.specs.Inner.Members.{members};
ghost use Rattle.rules_servers.specs.Changed.{column_of};
ghost use Rattle.rules_server.specs.declared.Change.TheVariants.{Activate};
ghost use Rattle.rules_event.specs.Effect.{send, change_in, error, error2};
ghost use Rattle.rules_event.specs.Asp.{traffic_effect};
ghost use Rattle.event_decision.specs.Inner.Decides.{asp_of, Decides, DecidesOn, act};
ghost use Rattle.event_traffic.specs.Inner.Aims.{TrafficColumns, other_mode_in, told, Aims, nothing_done};
ghost use Rattle.event_traffic.specs.Inner.Named.{refused_par, with_par, refused_pars, good_pars};
ghost use Rattle.rules_action.specs.Types.{asp_active_ack};

use codec_read::Reading;
use codec_wire::Step;
use rules_event::{Asp, Decision};
use rules_server::Change;
use state_lookup::Links;
use state_ranges::Named;
use state_sets::AsSet;

// ---- the identifiers of a message

// Those of a parameter, beside what was named before; mine are the ASes of the sender.
fn named_par(old: Named, far: &mut [u8; 128], t: u16, v: &[u8], links: Links, mine: AsSet) -> Named
    requires { Looked links.owner.now far.old (members old.set) }
    ensures { Names result (earlier (as_refused old.refused) (refused_par (refused_of links.entry mine) t v.now)) (with_par (members old.set) (owned_of links.entry) t v.now) × Looked links.entry.owner.now far.new (members result.set) }
{
    if t == 1 {
        return state_names::of_ids(old, v, links, mine);
    }
    if t == 8 {
        return state_names::of_ranges(old, far, v, links, mine);
    }
    old
}

// ---- Active and Inactive

// Whether the mode of some AS named is not m.
fn some_other(mode: &[u8; 16], m: usize, named: AsSet) -> bool
    ensures { result ≡ any_below (λ a. flag_at (members named) a && not (eqb (number_at mode.now a) m)) 16 }
{
    let mut found = false;
    for a in 0..16usize {
        found = found | (named.has(a) & (usize::from(mode[a]) != m));
    }
    found
}

// Whether a mode is given that is not that of some AS named (Rule 7.9).
fn other_mode(mode: &[u8; 16], m: u32, named: AsSet) -> bool
    ensures { result ≡ other_mode_in mode.now m (members named) }
{
    (m != 0) & some_other(mode, m as usize, named)
}

// An Ack, then Error 2 for the identifier that was refused, if one was, and a change in the ASes named.
fn acked(p: usize, ack: u32, k: Change, bad: Option<u32>, named: [bool; 16]) -> Decision
    requires { (p < 16) × (asp_of k < 16) }
    ensures { Decides result (change_in (action p ack 0 0 ∷ told p (as_refused bad)) k named) }
{
    let reply = event_decision::to_asp(p, ack, 0, 0);
    match bad {
        Some(id) => {
            let error = event_decision::to_asp(p, rules_action::MGMT_ERROR, id, 2);
            event_decision::change_two(reply, error, k, named)
        },
        None => event_decision::change_one(reply, k, named),
    }
}

// Active (Rule 7.9): whether the mode is another is given.
fn active_at(p: usize, other: bool, bad: Option<u32>, named: [bool; 16]) -> Decision
    requires { p < 16 }
    ensures { Decides result (cond other (send (action p 0 0 5 ∷ [])) (change_in (action p asp_active_ack 0 0 ∷ told p (as_refused bad)) (Activate p) named)) }
{
    if other {
        return event_decision::error(p, 5);
    }
    acked(
        p,
        rules_action::ASP_ACTIVE_ACK,
        Change::Activate(p),
        bad,
        named,
    )
}

// Active where on holds, else Inactive, in the ASes named; `bad` is the first identifier that was refused, if
// one was.
fn act_in(on: bool, mode: &[u8; 16], p: usize, m: u32, bad: Option<u32>, named: AsSet) -> Decision
    requires { p < 16 }
    ensures { DecidesOn (λ g. g.mode ≡ mode.now) (λ g. act g p on m (told p (as_refused bad)) (members named)) result }
{
    let flags = named.flags();
    if on {
        return active_at(p, other_mode(mode, m, named), bad, flags);
    }
    acked(
        p,
        rules_action::ASP_INACTIVE_ACK,
        Change::Deactivate(p),
        bad,
        flags,
    )
}

// The answer to a message that does nothing: Error 2 for the identifier that was refused, and Error 6 where
// none was.
fn fails(p: usize, bad: Option<u32>) -> Decision
    requires { p < 16 }
    ensures { Decides result (send (cond (as_refused bad).found (error2 p (as_refused bad).id) (error p 6))) }
{
    match bad {
        Some(id) => event_decision::error_two(p, id),
        None => event_decision::error(p, 6),
    }
}

// Whether a message does nothing: with identifiers where one is refused, and the list is taken whole or has
// no good one (Rule 7.27); without any where p has no AS.
fn does_nothing(ids: bool, found: bool, whole: bool, none: bool) -> bool
    ensures { result ≡ nothing_done ids found whole none }
{
    (ids & (found & (whole | none))) | (!ids & none)
}

// What a message names (Rule 7.8): by its identifiers the first that is refused, parameters in received
// order, and the ASes of p that own the others; and without any all of p's ASes.
fn aim<'a>(ids: bool, s: &[u8], member: &'a [u8; 256], links: Links<'a>, p: usize) -> Named
    requires { p < 16 }
    ensures { Aims result ids (refused_pars (is_refused links.entry.ids.iid.now links.entry.owner.now member.now links.entry.ids.count p) (walk s.now 8).pars) (good_pars (owned_of links.entry) (column_of member.now p) (walk s.now 8).pars) (column_of member.now p) }
{
    let mine = event_asps::ases_of(member, p);
    if !ids {
        return Named {
            refused: None,
            set: mine,
        };
    }
    let mut far = [0u8; 128];
    let mut named = Named {
        refused: None,
        set: AsSet::empty(),
    };
    let mut at: usize = 8;
    loop {
        let w = codec_wire::step_at(s, at);
        let Step::Param { tag, len, next } = w else {
            return Named {
                refused: named.refused,
                set: named.set.common(mine),
            };
        };
        let start = at + 4;
        let stop = at + len as usize;
        named = named_par(named, &mut far, tag, &s[start..stop], links, mine);
        at = next;
    }
}

// Active, where on holds, and Inactive (Rules 7.8 to 7.10, 7.27) of ASP p, which is a.
pub fn traffic_work<'a>(
    on: bool,
    s: &[u8],
    a: Asp,
    member: &'a [u8; 256],
    mode: &'a [u8; 16],
    links: Links<'a>,
    p: usize,
    r: Reading,
) -> Decision
    requires { p < 16 }
    ensures { DecidesOn (TrafficColumns links.entry.ids.count p a member.now mode.now links.entry.ids.iid.now links.entry.owner.now) (λ g. traffic_effect g p r (walk s.now 8).pars (act g p on r.mode)) result }
{
    if a.up != 1 {
        return event_decision::error(p, 6);
    }
    let ids = r.ids == 1;
    let e = aim(ids, s, member, links, p);
    let found = e.refused.is_some();
    if does_nothing(ids, found, a.wholelists == 1, e.set.is_empty()) {
        return fails(p, e.refused);
    }
    act_in(on, mode, p, r.mode, e.refused, e.set)
}
