// What happens as an ASP comes up, goes down or is lost, and as a recovery time is over.
#![tactic(auto)]

ghost use Rattle.std.specs.Prelude.{◌≡◌, cond, not, ◌&&◌, [], ◌∷◌, ◌<◌, eqb};
ghost use Rattle.laws.specs.Columns.{tabulate};
ghost use Rattle.rules_action.specs.Words.{action};
ghost use Rattle.state_sets.specs.Inner.Members.{members};
ghost use Rattle.rules_server.specs.Record.{some};
ghost use Rattle.rules_servers.specs.Changed.{column_of};
ghost use Rattle.rules_server.specs.declared.Change.TheVariants.{AspUp, Recover};
ghost use Rattle.rules_event.specs.Effect.{change_in};
ghost use Rattle.rules_event.specs.Records.{asp_at};
ghost use Rattle.rules_event.specs.Asp.{up_effect, down_effect, lost_effect};
ghost use Rattle.event_decision.specs.Inner.Decides.{Decides, DecidesOn};
ghost use Rattle.rules_action.specs.Types.{asp_up_ack};

use codec_read::Reading;
use rules_event::{Asp, Decision};
use rules_server::{Change, has_some};
use rules_servers::column_of;
use state_sets::AsSet;

// The ASes of ASP p, as a set.
pub fn ases_of(member: &[u8; 256], p: usize) -> AsSet
    requires { p < 16 }
    ensures { members result ≡ column_of member.now p }
{
    let mut r = AsSet::empty();
    for a in 0..16usize {
        r = r.with_if(a, member[a * 16 + p] == 1);
    }
    r
}

// AS a alone.
pub fn only(a: usize) -> [bool; 16]
    ensures { result ≡ tabulate 16 (λ c. eqb c a) }
{
    let mut r = [false; 16];
    for c in 0..16usize {
        r[c] = c == a;
    }
    r
}

// ---- up and down

// Up that is taken (Rule 7.4): was says that p was active in some AS, mine are its ASes.
fn rise(p: usize, was: bool, mine: [bool; 16]) -> Decision
    requires { p < 16 }
    ensures { Decides result (change_in (action p asp_up_ack 0 0 ∷ cond was (action p 0 0 6 ∷ []) []) (AspUp p) mine) }
{
    let ack = event_decision::to_asp(p, rules_action::ASP_UP_ACK, 0, 0);
    if was {
        let fault = event_decision::to_asp(p, 0, 0, 6);
        return event_decision::change_two(ack, fault, Change::AspUp(p), mine);
    }
    event_decision::change_one(ack, Change::AspUp(p), mine)
}

// Whether an ASP identifier is given that is not p's own.
fn is_other(r: Reading, own: u32) -> bool
    ensures { result ≡ (eqb r.identified 1 && not (eqb r.aspid own)) }
{
    (r.identified == 1) & (r.aspid != own)
}

// Up (Rule 7.4) of ASP p, which is s.
pub fn up_work<'a>(
    s: Asp,
    member: &'a [u8; 256],
    active: &'a [u8; 256],
    p: usize,
    r: Reading,
) -> Decision
    requires { p < 16 }
    ensures { DecidesOn (λ g. (asp_at g p ≡ s) × (g.member ≡ member.now) × (g.active ≡ active.now)) (λ g. up_effect g p r) result }
{
    if is_other(r, s.id) {
        return event_decision::error(p, 15);
    }
    rise(p, has_some(column_of(active, p)), column_of(member, p))
}

// Down (Rule 7.5).
pub fn down_work(member: &[u8; 256], p: usize) -> Decision
    requires { p < 16 }
    ensures { DecidesOn (λ g. g.member ≡ member.now) (λ g. down_effect g p) result }
{
    event_decision::change_one(
        event_decision::to_asp(p, rules_action::ASP_DOWN_ACK, 0, 0),
        Change::AspDown(p),
        column_of(member, p),
    )
}

// The association is lost (Rule 7.6).
pub fn lost_work(member: &[u8; 256], p: usize) -> Decision
    requires { p < 16 }
    ensures { DecidesOn (λ g. g.member ≡ member.now) (λ g. lost_effect g p) result }
{
    event_decision::change_only(Change::AspDown(p), column_of(member, p))
}

// The recovery time is over (Rule 7.13).
pub fn recovery_work(a: usize) -> Decision
    ensures { Decides result (change_in [] Recover (tabulate 16 (λ c. eqb c a))) }
{
    event_decision::change_only(Change::Recover, only(a))
}
