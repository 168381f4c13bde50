// What a host asks beside the events over the C ABI, for hosts in C and Rust (include/m2ua.h): each calls the
// entry of its name in crate abi_query and promises the same.
// Kept: twins of the entries of abi_query: a crate is a library or a static library (decision 177).
#![tactic(auto)]

ghost use Rattle.std.specs.Prelude.{◌≡◌};
ghost use Rattle.codec_read.specs.Meaning.{data_at};
ghost use Rattle.state_tables.specs.State.{gateway_of, units_of};
ghost use Rattle.abi_query.specs.Query.{param_at, as_state_at, link_place, waits};

use abi_query::{Answer, ParamAt, Waits};
use codec_read::DataAt;

// The version of the entries that this library has: raised by each change of a struct, a limit or a signature
// (include/m2ua.h, M2UA_ABI).
#[unsafe(no_mangle)]
pub extern "C" fn m2ua_abi() -> u32
    ensures { result ≡ 5 }
{
    abi_query::m2ua_abi()
}

// Where the protocol data of a message lies (Rule 1.7).
#[unsafe(no_mangle)]
pub extern "C" fn m2ua_data(msg: &[u8]) -> DataAt
    ensures { result ≡ data_at msg.now }
{
    abi_query::m2ua_data(msg)
}

// Where the value of the first parameter of a tag lies (Rule 1.8).
#[unsafe(no_mangle)]
pub extern "C" fn m2ua_parameter(msg: &[u8], tag: u16) -> ParamAt
    ensures { result ≡ param_at tag msg.now }
{
    abi_query::m2ua_parameter(msg, tag)
}

// The state of AS a (Rule 5.17): 0 down, 2 inactive, 3 active, 4 pending. The state's columns are lent.
// Kept: the C interface (include/m2ua.h) has these columns.
#[unsafe(no_mangle)]
pub extern "C" fn m2ua_as_state_at<'a>(
    asps: u8,
    ases: u8,
    links: u8,
    spare: u8,
    aspid: &'a [u32; 16],
    up: &'a [u8; 16],
    member: &'a [u8; 256],
    active: &'a [u8; 256],
    mode: &'a [u8; 16],
    waiting: &'a [u8; 16],
    iid: &'a [u32; 128],
    owner: &'a [u8; 128],
    state: &'a [u8; 128],
    highspeed: &'a [u8; 128],
    wholelists: &'a [u8; 16],
    count: &'a [u8; 16],
    tag: &'a [u16; 128],
    len: &'a [u16; 128],
    marked: &'a [u16; 128],
    id: &'a [u32; 128],
    correlation: &'a [u32; 128],
    a: usize,
) -> Answer
    ensures { result ≡ as_state_at (gateway_of asps ases links spare aspid.now up.now member.now active.now mode.now waiting.now iid.now owner.now state.now highspeed.now wholelists.now (units_of count.now tag.now len.now marked.now id.now correlation.now)) a }
{
    abi_query::m2ua_as_state_at(
        asps,
        ases,
        links,
        spare,
        aspid,
        up,
        member,
        active,
        mode,
        waiting,
        iid,
        owner,
        state,
        highspeed,
        wholelists,
        count,
        tag,
        len,
        marked,
        id,
        correlation,
        a,
    )
}

// The place of the link with an interface identifier (Rule 5.18).
#[unsafe(no_mangle)]
pub extern "C" fn m2ua_link_place_at<'a>(
    asps: u8,
    ases: u8,
    links: u8,
    spare: u8,
    aspid: &'a [u32; 16],
    up: &'a [u8; 16],
    member: &'a [u8; 256],
    active: &'a [u8; 256],
    mode: &'a [u8; 16],
    waiting: &'a [u8; 16],
    iid: &'a [u32; 128],
    owner: &'a [u8; 128],
    state: &'a [u8; 128],
    highspeed: &'a [u8; 128],
    wholelists: &'a [u8; 16],
    count: &'a [u8; 16],
    tag: &'a [u16; 128],
    len: &'a [u16; 128],
    marked: &'a [u16; 128],
    id: &'a [u32; 128],
    correlation: &'a [u32; 128],
    wanted: u32,
) -> Answer
    ensures { result ≡ link_place (gateway_of asps ases links spare aspid.now up.now member.now active.now mode.now waiting.now iid.now owner.now state.now highspeed.now wholelists.now (units_of count.now tag.now len.now marked.now id.now correlation.now)) wanted }
{
    abi_query::m2ua_link_place_at(
        asps,
        ases,
        links,
        spare,
        aspid,
        up,
        member,
        active,
        mode,
        waiting,
        iid,
        owner,
        state,
        highspeed,
        wholelists,
        count,
        tag,
        len,
        marked,
        id,
        correlation,
        wanted,
    )
}

// The ASes whose recovery time starts between two states, and those whose time is to be stopped (Rule
// 5.19): lent are the columns `waiting` of the two.
#[unsafe(no_mangle)]
pub extern "C" fn m2ua_waits_at<'a>(before: &'a [u8; 16], after: &'a [u8; 16]) -> Waits
    ensures { result ≡ waits before.now after.now }
{
    abi_query::m2ua_waits_at(before, after)
}
