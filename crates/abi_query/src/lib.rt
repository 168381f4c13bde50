// What a host asks beside the events (crate abi_query_c exports it over the C ABI): a parameter of a message,
// the state of an AS, the place of a link, which recovery times to start and to stop.
#![tactic(auto)]

ghost use Rattle.std.specs.Prelude.{◌≡◌, ◌&&◌, not};
ghost use Rattle.codec_read.specs.Meaning.{data_at};
ghost use Rattle.state_tables.specs.State.{gateway_of, units_of};
ghost use Rattle.abi_query.specs.Query.{param_at, as_state_at, link_place, new_in, waits};

use codec_read::DataAt;
use codec_wire::HEADER;
use state_lookup::Identifiers;

// A state that is not sound, and an AS or a link that the plan has not.
// Kept: the C interface (include/m2ua.h) has these numbers; event_asked's enum speaks of events.
const NOT_SOUND: u32 = 105;

const NOT_IN_PLAN: u32 = 102;

// Where a parameter's value lies: found is 1, its first byte and the number of its bytes; zeros where there
// is no such parameter.
// Kept: the C interface (include/m2ua.h) has this struct.
#[repr(C)]
#[derive(Drop)]
pub struct ParamAt {
    pub found: u32,
    pub start: usize,
    pub length: usize,
}

// 0 and what was asked for, or the number of the refusal and 0.
// Kept: the C interface (include/m2ua.h) has this struct.
#[repr(C)]
#[derive(Drop)]
pub struct Answer {
    pub code: u32,
    pub value: u32,
}

// For each AS whether it began to wait, and whether it ceased to: 1 or 0.
#[repr(C)]
#[derive(Drop)]
pub struct Waits {
    pub began: [u8; 16],
    pub ended: [u8; 16],
}

// The version of the entries that this library has: raised by each change of a struct, a limit or a signature
// (include/m2ua.h, M2UA_ABI).
pub fn m2ua_abi() -> u32
    ensures { result ≡ 5 }
{
    5
}

// Where the protocol data of a message lies (Rule 1.7).
pub fn m2ua_data(msg: &[u8]) -> DataAt
    ensures { result ≡ data_at msg.now }
{
    codec_read::data_at(msg)
}

// Where the value of the first parameter of a tag lies (Rule 1.8).
pub fn m2ua_parameter(msg: &[u8], tag: u16) -> ParamAt
    ensures { result ≡ param_at tag msg.now }
{
    match codec_read::find(msg, HEADER, tag, tag) {
        Some(p) => ParamAt {
            found: 1,
            start: p.start,
            length: p.length,
        },
        None => ParamAt {
            found: 0,
            start: 0,
            length: 0,
        },
    }
}

// The state of AS a (Rule 5.17): 0 down, 2 inactive, 3 active, 4 pending. The state's columns are lent.
// Kept: the C interface (include/m2ua.h) has these columns.
pub fn m2ua_as_state_at<'a>(
    asps: u8,
    ases: u8,
    links: u8,
    spare: u8,
    aspid: &'a [u32; 16],
    up: &'a [u8; 16],
    member: &'a [u8; 256],
    active: &'a [u8; 256],
    mode: &'a [u8; 16],
    waiting: &'a [u8; 16],
    iid: &'a [u32; 128],
    owner: &'a [u8; 128],
    state: &'a [u8; 128],
    highspeed: &'a [u8; 128],
    wholelists: &'a [u8; 16],
    count: &'a [u8; 16],
    tag: &'a [u16; 128],
    len: &'a [u16; 128],
    marked: &'a [u16; 128],
    id: &'a [u32; 128],
    correlation: &'a [u32; 128],
    a: usize,
) -> Answer
    ensures { result ≡ as_state_at (gateway_of asps ases links spare aspid.now up.now member.now active.now mode.now waiting.now iid.now owner.now state.now highspeed.now wholelists.now (units_of count.now tag.now len.now marked.now id.now correlation.now)) a }
{
    let sound = state_sound::sound_of(
        asps,
        ases,
        links,
        spare,
        aspid,
        up,
        member,
        active,
        mode,
        waiting,
        iid,
        owner,
        state,
        highspeed,
        wholelists,
        count,
        tag,
        len,
        marked,
        id,
        correlation,
    );
    if !sound {
        return Answer {
            code: NOT_SOUND,
            value: 0,
        };
    }
    let n = usize::from(ases);
    if a < n {
        let now = state_lookup::as_state(up, member, active, waiting, a);
        return Answer {
            code: 0,
            value: now,
        };
    }
    Answer {
        code: NOT_IN_PLAN,
        value: 0,
    }
}

// The place of the link with an interface identifier (Rule 5.18).
pub fn m2ua_link_place_at<'a>(
    asps: u8,
    ases: u8,
    links: u8,
    spare: u8,
    aspid: &'a [u32; 16],
    up: &'a [u8; 16],
    member: &'a [u8; 256],
    active: &'a [u8; 256],
    mode: &'a [u8; 16],
    waiting: &'a [u8; 16],
    iid: &'a [u32; 128],
    owner: &'a [u8; 128],
    state: &'a [u8; 128],
    highspeed: &'a [u8; 128],
    wholelists: &'a [u8; 16],
    count: &'a [u8; 16],
    tag: &'a [u16; 128],
    len: &'a [u16; 128],
    marked: &'a [u16; 128],
    id: &'a [u32; 128],
    correlation: &'a [u32; 128],
    wanted: u32,
) -> Answer
    ensures { result ≡ link_place (gateway_of asps ases links spare aspid.now up.now member.now active.now mode.now waiting.now iid.now owner.now state.now highspeed.now wholelists.now (units_of count.now tag.now len.now marked.now id.now correlation.now)) wanted }
{
    let sound = state_sound::sound_of(
        asps,
        ases,
        links,
        spare,
        aspid,
        up,
        member,
        active,
        mode,
        waiting,
        iid,
        owner,
        state,
        highspeed,
        wholelists,
        count,
        tag,
        len,
        marked,
        id,
        correlation,
    );
    if !sound {
        return Answer {
            code: NOT_SOUND,
            value: 0,
        };
    }
    let n = usize::from(links);
    let ids = Identifiers { iid, count: n };
    match ids.index_of(wanted) {
        Some(l) => Answer {
            code: 0,
            value: l as u32,
        },
        None => Answer {
            code: NOT_IN_PLAN,
            value: 0,
        },
    }
}

// The ASes that wait in x and not in y.
fn new_in(x: &[u8; 16], y: &[u8; 16]) -> [u8; 16]
    ensures { result ≡ new_in x.now y.now }
{
    let mut r = [0u8; 16];
    for a in 0..16usize {
        r[a] = u8::from((x[a] == 1) & (y[a] != 1));
    }
    r
}

// The ASes whose recovery time starts between two states, and those whose time is to be stopped (Rule
// 5.19): lent are the columns `waiting` of the two.
pub fn m2ua_waits_at<'a>(before: &'a [u8; 16], after: &'a [u8; 16]) -> Waits
    ensures { result ≡ waits before.now after.now }
{
    let began = new_in(after, before);
    let ended = new_in(before, after);
    Waits { began, ended }
}
