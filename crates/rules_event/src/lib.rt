// What an event does, as definitions (specs/), with the structs that the code passes.
#![tactic(auto)]

use rules_action::Action;
use rules_server::{Arrival, Change};
use state_tables::Gateway;

// What an event hands back: a refusal, or 0, the number of actions written, and the next state.
// Kept: `MeetsRules` (docs/STATEMENTS.md) speaks of the refusal's number.
#[repr(C)]
#[derive(Drop)]
pub struct Outcome {
    pub refusal: u32,
    pub count: usize,
    pub gateway: Gateway,
}

// ---- records: what the rules of links and of ASPs are said of (Rule 5.27). A new column of links or of ASPs
// is a field here, and is read from the state in one place (`link_at`, `asp_at`).
// Kept: the C interface (include/m2ua.h) has these columns, of numbers.

// What is kept of a link: a row of the links' columns.
#[derive(Clone, Copy)]
pub struct Link {
    pub id: u32,
    pub owner: u8,
    pub state: u8,
    pub highspeed: u8,
}

// What the events of a link ask of the AS that owns it: its traffic mode, whether it waits, how many units it
// holds.
#[derive(Clone, Copy)]
pub struct Owner {
    pub mode: u8,
    pub waiting: u8,
    pub held: usize,
}

// What is kept of an ASP itself: a row of the ASPs' columns.
#[derive(Clone, Copy)]
pub struct Asp {
    pub id: u32,
    pub up: u8,
    pub wholelists: u8,
}

// What class 6 asks of its sender: whether it is up, a member of the link's owner, and active there.
#[derive(Clone, Copy)]
pub struct Sender {
    pub up: u8,
    pub member: u8,
    pub active: u8,
}

// ---- decisions

// The actions that come first: at most two.
#[derive(Clone, Copy)]
pub enum Replies {
    Nothing,
    One(Action),
    Two(Action, Action),
}

// An action of a class and type and a subject, to each ASP of `who`. (In this order the flags begin at a
// multiple of 8 bytes of a `Decision`. At an odd byte they are cut up and put together again each time.)
#[repr(C)]
#[derive(Clone, Copy)]
pub struct Told {
    pub classtype: u32,
    pub who: [bool; 16],
    pub subject: u32,
}

// What an accepted event does, as the code decides it before it does it (the definitions' Effect, by
// `effect_in`).
#[derive(Clone, Copy)]
pub enum Decision {
    // actions alone
    Send(Replies),
    // the link at an index comes to a state, with an action
    Turn {
        link: usize,
        state: u8,
        action: Action,
    },
    // an action to several ASPs
    Spread(Told),
    // the link at an index comes to a state, with an action to several ASPs
    TurnSpread {
        link: usize,
        state: u8,
        told: Told,
    },
    // replies, then a change in the ASes of `who`
    ChangeIn {
        replies: Replies,
        change: Change,
        who: [bool; 16],
    },
    // a unit comes in for the AS of an index, and is held
    TakeIn {
        owner: usize,
        unit: Arrival,
    },
}
