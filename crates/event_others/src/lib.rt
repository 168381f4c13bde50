// What a message of an ASP is, and what those do that are not of the ASP itself: Beat, Beat Ack, class 6, and
// any other.
#![tactic(auto)]

ghost use Rattle.std.specs.Prelude.{◌≡◌, ◌<◌};
ghost use Rattle.rules_event.specs.Link.{class_six_on};
ghost use Rattle.rules_event.specs.Rules.{is_error, from_asp};
ghost use Rattle.event_decision.specs.Inner.Decides.{Decides};
ghost use Rattle.event_others.specs.Inner.Other.{other_read, other_in};

use codec_read::Reading;
use rules_event::{Decision, Link, Sender};

// Whether a message is an Error (Rule 7.2).
#[tactic(auto, unfolding(rules_event::specs::Rules::is_error))]
pub fn is_error(s: &[u8]) -> bool
    ensures { result ≡ is_error s.now }
{
    (4 <= s.len()) && ((s[2] == 0) & (s[3] == 0))
}

// The types of class 6 that ASPs send (Rule 7.14).
#[tactic(auto, unfolding(rules_event::specs::Rules::from_asp))]
fn from_asp(k: u32) -> bool
    ensures { result ≡ from_asp k }
{
    matches!(k, 1 | 2 | 4 | 7 | 10 | 15)
}

// Beat, Beat Ack, class 6 and any other (Rules 7.7, 7.14, 7.23), by class and type.
#[tactic(auto, using(event_decision::specs::Inner::Decides::decisions), unfolding(crate::specs::Inner::Other::other_read))]
fn read_work(there: bool, p: usize, l: usize, k: Link, s: Sender, r: Reading) -> Decision
    requires { (p < 16) × (l < 128) × (r.class < 256) × (r.msgtype < 256) }
    ensures { Decides result (other_read (class_six_on there p l k s r) p r) }
{
    match r.class * 256 + r.msgtype {
        rules_action::BEAT => event_decision::reply(p, rules_action::BEAT_ACK, 0, 0),
        rules_action::BEAT_ACK => event_decision::nothing(),
        _ => {
            if (r.class == 6) & from_asp(r.msgtype) {
                return event_links::class_six(there, p, l, k, s, r);
            }
            event_decision::error(p, 6)
        }
    }
}

// What a message of ASP p does that is neither Up, Down, Active nor Inactive: error says that it is an Error.
// One of class 6 names the link k at l, or none where there says so; s is what the link's owner has of p.
#[tactic(auto, using(event_decision::specs::Inner::Decides::decisions), unfolding(crate::specs::Inner::Other::other_in))]
pub fn other_work(
    there: bool,
    p: usize,
    l: usize,
    k: Link,
    s: Sender,
    error: bool,
    r: Reading,
) -> Decision
    requires { (p < 16) × (l < 128) × (r.class < 256) × (r.msgtype < 256) }
    ensures { Decides result (other_in there p l k s error r) }
{
    if error {
        return event_decision::nothing();
    }
    if r.code != 0 {
        return event_decision::error(p, r.code);
    }
    read_work(there, p, l, k, s, r)
}
