// Makes the enum `Decision`, one function for each shape of effect, with what it decides.
#![tactic(auto)]

ghost use Rattle.std.specs.Prelude.{◌≡◌, [], ◌∷◌, ◌<◌};
ghost use Rattle.rules_action.specs.Words.{action, link_side, to_all};
ghost use Rattle.rules_event.specs.Effect.{send, set_link, change_in, take_in};
ghost use Rattle.rules_event.specs.Inner.Decision.{replies_in};
ghost use Rattle.event_decision.specs.Inner.Decides.{Decides, asp_of};

use rules_action::Action;
use rules_event::{Decision, Replies, Told};
use rules_server::{Arrival, Change};

// An action to ASP p.
pub fn to_asp(p: usize, classtype: u32, subject: u32, value: u32) -> Action
    requires { p < 16 }
    ensures { result ≡ action p classtype subject value }
{
    Action {
        to: p as u32,
        classtype,
        subject,
        value,
        unit: 0,
    }
}

// An action to the link side.
pub fn to_link(classtype: u32, subject: u32, value: u32) -> Action
    ensures { result ≡ action link_side classtype subject value }
{
    Action {
        to: 255,
        classtype,
        subject,
        value,
        unit: 0,
    }
}

// No action and no change.
pub fn nothing() -> Decision
    ensures { Decides result (send []) }
{
    Decision::Send(Replies::Nothing)
}

// Two actions.
pub fn say_two(a: Action, b: Action) -> Decision
    ensures { Decides result (send (a ∷ b ∷ [])) }
{
    Decision::Send(Replies::Two(a, b))
}

// An action to ASP p.
pub fn reply(p: usize, classtype: u32, subject: u32, value: u32) -> Decision
    requires { p < 16 }
    ensures { Decides result (send (action p classtype subject value ∷ [])) }
{
    Decision::Send(Replies::One(to_asp(p, classtype, subject, value)))
}

// An Error: its value is the code; only one of code 2 has a subject (Rule 8.4).
pub fn error(p: usize, code: u32) -> Decision
    requires { p < 16 }
    ensures { Decides result (send (action p 0 0 code ∷ [])) }
{
    reply(p, rules_action::MGMT_ERROR, 0, code)
}

pub fn error_two(p: usize, id: u32) -> Decision
    requires { p < 16 }
    ensures { Decides result (send (action p 0 id 2 ∷ [])) }
{
    reply(p, rules_action::MGMT_ERROR, id, 2)
}

// An order to the link side.
pub fn order(classtype: u32, subject: u32, value: u32) -> Decision
    ensures { Decides result (send (action link_side classtype subject value ∷ [])) }
{
    Decision::Send(Replies::One(to_link(classtype, subject, value)))
}

// The link at an index comes to a state, with an order to the link side.
pub fn turn_and_send(link: usize, state: u8, classtype: u32, subject: u32) -> Decision
    requires { link < 128 }
    ensures { Decides result (set_link link state (action link_side classtype subject 0 ∷ [])) }
{
    Decision::Turn {
        link,
        state,
        action: to_link(classtype, subject, 0),
    }
}

// An action to each ASP of `who`.
pub fn spread(who: [bool; 16], classtype: u32, subject: u32) -> Decision
    ensures { Decides result (send (to_all who classtype subject 0)) }
{
    Decision::Spread(Told {
        classtype,
        who,
        subject,
    })
}

// The link at an index comes to a state, with an action to each ASP of `who`.
pub fn turn_spread(
    link: usize,
    state: u8,
    who: [bool; 16],
    classtype: u32,
    subject: u32,
) -> Decision
    requires { link < 128 }
    ensures { Decides result (set_link link state (to_all who classtype subject 0)) }
{
    let told = Told {
        classtype,
        who,
        subject,
    };
    Decision::TurnSpread { link, state, told }
}

// A change in the ASes of `who`, behind replies.
fn change(replies: Replies, change: Change, who: [bool; 16]) -> Decision
    requires { asp_of change < 16 }
    ensures { Decides result (change_in (replies_in replies) change who) }
{
    Decision::ChangeIn {
        replies,
        change,
        who,
    }
}

// A change in the ASes of `who`, without a reply.
pub fn change_only(k: Change, who: [bool; 16]) -> Decision
    requires { asp_of k < 16 }
    ensures { Decides result (change_in [] k who) }
{
    change(Replies::Nothing, k, who)
}

// A change after one reply.
pub fn change_one(a: Action, k: Change, who: [bool; 16]) -> Decision
    requires { asp_of k < 16 }
    ensures { Decides result (change_in (a ∷ []) k who) }
{
    change(Replies::One(a), k, who)
}

// A change after two replies.
pub fn change_two(a: Action, b: Action, k: Change, who: [bool; 16]) -> Decision
    requires { asp_of k < 16 }
    ensures { Decides result (change_in (a ∷ b ∷ []) k who) }
{
    change(Replies::Two(a, b), k, who)
}

// A unit comes in for AS a, and is held.
pub fn take_in(a: usize, unit: Arrival) -> Decision
    requires { a < 16 }
    ensures { Decides result (take_in a unit) }
{
    Decision::TakeIn {
        owner: a,
        unit: unit,
    }
}
