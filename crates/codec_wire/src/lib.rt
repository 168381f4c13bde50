// The wire format below the messages: big-endian numbers, the walk over parameters, the reading place.
#![tactic(auto)]

ghost use Rattle.std.specs.Prelude.{◌≡◌, ◌+◌, ◌≤◌, length};
ghost use Rattle.codec_wire.specs.Number.{be};
ghost use Rattle.codec_wire.specs.Refusal.{number, code};
ghost use Rattle.codec_wire.specs.Walk.{step_at, step_code, walk, part_of};

// The bytes of a message's header; the first parameter stands behind them.
pub const HEADER: usize = 8;
// The most bytes of a message.
pub const MOST: usize = 2048;

// Why a message is refused: RFC 3331's error codes.
#[derive(Clone, Copy, PartialEq, Eq, Debug)]
pub enum Refusal {
    InvalidVersion = 1,
    UnsupportedClass = 3,
    UnsupportedType = 4,
    UnsupportedMode = 5,
    ProtocolError = 7,
    UnsupportedIdentifier = 8,
    InvalidValue = 17,
    FieldError = 18,
    UnexpectedParameter = 19,
    MissingParameter = 22,
}

impl From<Refusal> for u32 {
    fn from(r: Refusal) -> u32
        ensures { result ≡ number r }
    {
        r as u32
    }
}

// What stands at a position of a message: a parameter with the position after its padding, the end, or a
// fault.
// Kept: the form of the project's walks, `let Step::Param { .. } = .. else` (docs/DECISIONS.md).
#[derive(Drop)]
pub enum Step {
    Param { tag: u16, len: u16, next: usize },
    End,
    Fault,
}

// The 16-bit number at a position.
pub fn get16(s: &[u8], at: usize) -> u16
    requires { at + 2 ≤ length s.now }
    ensures { result ≡ be 2 s.now at }
{
    u16::from_be_bytes([s[at], s[at + 1]])
}

// The 32-bit number at a position.
pub fn get32(s: &[u8], at: usize) -> u32
    requires { at + 4 ≤ length s.now }
    ensures { result ≡ be 4 s.now at }
{
    u32::from_be_bytes([s[at], s[at + 1], s[at + 2], s[at + 3]])
}

// What stands at a position.
#[tactic(auto, unfolding(crate::specs::Walk::step_at))]
pub fn step_at(s: &[u8], at: usize) -> Step
    ensures { result ≡ step_at s.now at }
{
    if s.len() <= at {
        return Step::End;
    }
    let left = s.len() - at;
    if left < 4 {
        return Step::Fault;
    }
    let tag = get16(s, at);
    let len = get16(s, at + 2);
    if len < 4 {
        return Step::Fault;
    }
    let size = (usize::from(len) + 3) / 4 * 4;
    if size <= left {
        Step::Param {
            tag,
            len,
            next: at + size,
        }
    } else {
        Step::Fault
    }
}

// What a reading refuses: a fault.
pub fn step_code(w: Step) -> Result<(), Refusal>
    ensures { code result ≡ step_code w }
{
    match w {
        Step::Fault => Err(Refusal::FieldError),
        _ => Ok(()),
    }
}

// The walk from a position on: the fault that ends it is refused.
pub fn walk_code(s: &[u8], from: usize) -> Result<(), Refusal>
    ensures { code result ≡ (walk s.now from).code }
{
    let mut at = from;
    loop {
        let w = step_at(s, at);
        let Step::Param {
            tag: _,
            len: _,
            next,
        } = w
        else {
            return step_code(w);
        };
        at = next;
    }
}

// The value of the parameter at a position whose length field is len, as a part of the message; nothing where
// it is not there.
#[tactic(auto, unfolding(crate::specs::Walk::part_of))]
pub fn part_at(s: &[u8], at: usize, len: usize) -> &[u8]
    ensures { result.now ≡ part_of s.now at len }
{
    if len < 4 || s.len() < len || s.len() - len < at {
        return &s[..0];
    }
    &s[at + 4..at + len]
}

// A reading place: the message and the position in it, together. The functions over it are thin: they take it
// apart and call those above.
// Kept: the form of the project for a slice and a position in it (docs/DECISIONS.md).
#[derive(Drop)]
pub struct Place<'a> {
    pub msg: &'a [u8],
    pub at: usize,
}

// The place at a position of a message.
pub fn place_at<'a>(msg: &'a [u8], at: usize) -> Place<'a>
    ensures { (result.msg ≡ msg.entry) × (result.at ≡ at) }
{
    Place { msg, at }
}

// What stands at the place.
pub fn reading<'a>(p: Place<'a>) -> Step
    ensures { result ≡ step_at p.entry.msg.now p.entry.at }
{
    step_at(p.msg, p.at)
}

// The value of the parameter at the place, whose length field is len, as a part of the message; nothing where
// it is not there.
pub fn value<'a>(p: Place<'a>, len: usize) -> &'a [u8]
    ensures { result.now ≡ part_of p.entry.msg.now p.entry.at len }
{
    part_at(p.msg, p.at, len)
}

// What stands at a position, read by a place made there.
pub fn reading_at(s: &[u8], at: usize) -> Step
    ensures { result ≡ step_at s.now at }
{
    reading(place_at(s, at))
}

// The value of the parameter at a position, whose length field is len, read by a place made there.
pub fn value_at(s: &[u8], at: usize, len: usize) -> &[u8]
    ensures { result.now ≡ part_of s.now at len }
{
    value(place_at(s, at), len)
}
