// Actions and how they are written, four words to an action (Rule 8.1).
#![tactic(auto)]

ghost use Rattle.std.specs.Prelude.{◌≡◌, ◌+◌, ◌*◌, ◌≤◌, length};
ghost use Rattle.laws.specs.Below.{when};
ghost use Rattle.rules_action.specs.Words.{to_all};
ghost use Rattle.rules_action.specs.Inner.Words.{put_at, Written};

// The messages that the events know, each as an action has it: class * 256 + type (Rules 2.10, 8.1).
pub const MGMT_ERROR: u32 = 0;

pub const MGMT_NOTIFY: u32 = 1;

pub const ASP_UP: u32 = 3 * 256 + 1;

pub const ASP_DOWN: u32 = 3 * 256 + 2;

pub const BEAT: u32 = 3 * 256 + 3;

pub const ASP_UP_ACK: u32 = 3 * 256 + 4;

pub const ASP_DOWN_ACK: u32 = 3 * 256 + 5;

pub const BEAT_ACK: u32 = 3 * 256 + 6;

pub const ASP_ACTIVE: u32 = 4 * 256 + 1;

pub const ASP_INACTIVE: u32 = 4 * 256 + 2;

pub const ASP_ACTIVE_ACK: u32 = 4 * 256 + 3;

pub const ASP_INACTIVE_ACK: u32 = 4 * 256 + 4;

pub const USER_DATA: u32 = 6 * 256 + 1;

pub const ESTABLISH_REQUEST: u32 = 6 * 256 + 2;

pub const ESTABLISH_CONFIRM: u32 = 6 * 256 + 3;

pub const RELEASE_REQUEST: u32 = 6 * 256 + 4;

pub const RELEASE_CONFIRM: u32 = 6 * 256 + 5;

pub const RELEASE_INDICATION: u32 = 6 * 256 + 6;

pub const STATE_REQUEST: u32 = 6 * 256 + 7;

pub const RETRIEVAL_REQUEST: u32 = 6 * 256 + 10;

pub const DATA_ACK: u32 = 6 * 256 + 15;

// The status of a Notify (Rule 8.5): the new state of an AS is type 1, and that another ASP has become active
// in one is type 2, information 2.
pub const AS_STATE: u32 = 65536;

pub const OTHER_ACTIVE: u32 = 2 * 65536 + 2;

// To whom: the number of an ASP, or 255 for the link side. Which message: class * 256 + type. Its subject and
// its value. The index of the unit held that it sends (Rule 7.25), which its words do not have; 0 for any
// other.
#[derive(Clone, Copy)]
pub struct Action {
    pub to: u32,
    pub classtype: u32,
    pub subject: u32,
    pub value: u32,
    pub unit: u32,
}

// The action at place n of the list.
pub fn put(words: &mut [u32], n: usize, o: Action)
    requires { n * 4 + 4 ≤ length words.old }
    ensures { words.new ≡ put_at words.old n o }
{
    let at = n * 4;
    words[at] = o.to;
    words[at + 1] = o.classtype;
    words[at + 2] = o.subject;
    words[at + 3] = o.value;
}

// The action at place n where yes holds, else nothing; and the next place.
pub fn put_if(words: &mut [u32], n: usize, yes: bool, o: Action) -> usize
    requires { n * 4 + 4 ≤ length words.old }
    ensures { Written words.old n (when yes o) words.new result }
{
    if yes {
        put(words, n, o);
        return n + 1;
    }
    n
}

// The same action to each ASP whose flag is set, ascending, from place n on; and the next place.
pub fn to_all(
    who: [bool; 16],
    classtype: u32,
    subject: u32,
    value: u32,
    words: &mut [u32],
    n: usize,
) -> usize
    requires { n * 4 + 64 ≤ length words.old }
    ensures { Written words.old n (to_all who classtype subject value) words.new result }
{
    let mut m = n;
    for q in 0..16usize {
        m = put_if(
            words,
            m,
            who[q],
            Action {
                to: q as u32,
                classtype,
                subject,
                value,
                unit: 0,
            },
        );
    }
    m
}
