// The actions as bytes over the C ABI, for hosts in C and Rust (include/m2ua.h): each calls the entry of its
// name in crate send_orders and promises the same.
// Kept: twins of the entries of send_orders: a crate is a library or a static library (decision 177).
#![tactic(auto)]

// Kept: the state column by column, as the C interface (include/m2ua.h) has it.

ghost use Rattle.event_asked.specs.Happened.{happened};
ghost use Rattle.state_tables.specs.State.{gateway_of, units_of};
ghost use Rattle.send_message.specs.Send.{Sends, SendsMany};
ghost use Rattle.send_message.specs.Handle.{Handles};

use codec_write::Written;
use send_message::{Batch, Handled};

// From a place of an event's actions on, the messages of as many as go into a buffer, and the length of
// each (Rule 8.16). The event is run once, with a list of words of its own, on copies of the columns that
// events change; of the hold, which only a unit that comes in changes, it is lent nothing.
#[unsafe(no_mangle)]
pub extern "C" fn m2ua_orders_at<'a>(
    asps: u8,
    ases: u8,
    links: u8,
    spare: u8,
    aspid: &'a [u32; 16],
    up: &'a [u8; 16],
    member: &'a [u8; 256],
    active: &'a [u8; 256],
    mode: &'a [u8; 16],
    waiting: &'a [u8; 16],
    iid: &'a [u32; 128],
    owner: &'a [u8; 128],
    state: &'a [u8; 128],
    highspeed: &'a [u8; 128],
    wholelists: &'a [u8; 16],
    count: &'a [u8; 16],
    tag: &'a [u16; 128],
    len: &'a [u16; 128],
    marked: &'a [u16; 128],
    id: &'a [u32; 128],
    correlation: &'a [u32; 128],
    kind: u32,
    i: usize,
    msg: &'a [u8],
    hold: &'a [u8],
    place: usize,
    lens: &mut [u32],
    out: &mut [u8],
) -> Batch
    ensures { SendsMany (gateway_of asps ases links spare aspid.now up.now member.now active.now mode.now waiting.now iid.now owner.now state.now highspeed.now wholelists.now (units_of count.now tag.now len.now marked.now id.now correlation.now)) hold.now (happened kind i msg.now) place lens.old out.old result lens.new out.new }
{
    send_orders::m2ua_orders_at(
        asps,
        ases,
        links,
        spare,
        aspid,
        up,
        member,
        active,
        mode,
        waiting,
        iid,
        owner,
        state,
        highspeed,
        wholelists,
        count,
        tag,
        len,
        marked,
        id,
        correlation,
        kind,
        i,
        msg,
        hold,
        place,
        lens,
        out,
    )
}

// The message of the action at a place of an event's actions, written at a buffer's start (Rule 8.15): the
// first from that place on. One to the link side has no bytes.
#[unsafe(no_mangle)]
pub extern "C" fn m2ua_order_at<'a>(
    asps: u8,
    ases: u8,
    links: u8,
    spare: u8,
    aspid: &'a [u32; 16],
    up: &'a [u8; 16],
    member: &'a [u8; 256],
    active: &'a [u8; 256],
    mode: &'a [u8; 16],
    waiting: &'a [u8; 16],
    iid: &'a [u32; 128],
    owner: &'a [u8; 128],
    state: &'a [u8; 128],
    highspeed: &'a [u8; 128],
    wholelists: &'a [u8; 16],
    count: &'a [u8; 16],
    tag: &'a [u16; 128],
    len: &'a [u16; 128],
    marked: &'a [u16; 128],
    id: &'a [u32; 128],
    correlation: &'a [u32; 128],
    kind: u32,
    i: usize,
    msg: &'a [u8],
    hold: &'a [u8],
    place: usize,
    out: &mut [u8],
) -> Written
    ensures { Sends (gateway_of asps ases links spare aspid.now up.now member.now active.now mode.now waiting.now iid.now owner.now state.now highspeed.now wholelists.now (units_of count.now tag.now len.now marked.now id.now correlation.now)) hold.now (happened kind i msg.now) place out.old result out.new }
{
    send_orders::m2ua_order_at(
        asps,
        ases,
        links,
        spare,
        aspid,
        up,
        member,
        active,
        mode,
        waiting,
        iid,
        owner,
        state,
        highspeed,
        wholelists,
        count,
        tag,
        len,
        marked,
        id,
        correlation,
        kind,
        i,
        msg,
        hold,
        place,
        out,
    )
}

// The event, on the state where it lies, and the messages of all its actions (Rule 8.20). What the bytes
// are made of and events change, the units' columns, is copied out before it; the hold stays where there
// are actions.
#[unsafe(no_mangle)]
pub extern "C" fn m2ua_handle_at<'a>(
    asps: u8,
    ases: u8,
    links: u8,
    spare: u8,
    aspid: &'a [u32; 16],
    up: &mut [u8; 16],
    member: &'a [u8; 256],
    active: &mut [u8; 256],
    mode: &'a [u8; 16],
    waiting: &mut [u8; 16],
    iid: &'a [u32; 128],
    owner: &'a [u8; 128],
    state: &mut [u8; 128],
    highspeed: &'a [u8; 128],
    wholelists: &'a [u8; 16],
    count: &mut [u8; 16],
    tag: &mut [u16; 128],
    len: &mut [u16; 128],
    marked: &mut [u16; 128],
    id: &mut [u32; 128],
    correlation: &mut [u32; 128],
    kind: u32,
    i: usize,
    msg: &[u8],
    hold: &mut [u8],
    words: &mut [u32; 1544],
    lens: &mut [u32; 386],
    out: &mut [u8],
) -> Handled
    ensures { Handles (gateway_of asps ases links spare aspid.now up.old member.now active.old mode.now waiting.old iid.now owner.now state.old highspeed.now wholelists.now (units_of count.old tag.old len.old marked.old id.old correlation.old)) (happened kind i msg.now) hold.old words.old lens.old out.old result (gateway_of asps ases links spare aspid.now up.new member.now active.new mode.now waiting.new iid.now owner.now state.new highspeed.now wholelists.now (units_of count.new tag.new len.new marked.new id.new correlation.new)) hold.new words.new lens.new out.new }
{
    send_orders::m2ua_handle_at(
        asps,
        ases,
        links,
        spare,
        aspid,
        up,
        member,
        active,
        mode,
        waiting,
        iid,
        owner,
        state,
        highspeed,
        wholelists,
        count,
        tag,
        len,
        marked,
        id,
        correlation,
        kind,
        i,
        msg,
        hold,
        words,
        lens,
        out,
    )
}
