// The events over the C ABI, for hosts in C and Rust (include/m2ua.h): the entry calls that of its name in
// crate event_run and promises the same. (Each crate with entries has a static library of its own, so that a
// function with one caller is compiled into it.)
// Kept: the C interface (include/m2ua.h) has these columns.
// Kept: twins of the entries of event_run: a crate is a library or a static library (decision 177).
#![tactic(auto)]

ghost use Rattle.rules_event.specs.Entry.{MeetsRules};
ghost use Rattle.event_asked.specs.Happened.{happened, event};
ghost use Rattle.state_tables.specs.State.{gateway_of, units_of};
ghost use Rattle.event_run.specs.At.{outcome_of};

use event_run::Done;

// The entry for hosts: the hold is lent whole, so no unit is taken in without its bytes.
#[unsafe(no_mangle)]
pub extern "C" fn m2ua_event_at<'a>(
    asps: u8,
    ases: u8,
    links: u8,
    spare: u8,
    aspid: &'a [u32; 16],
    up: &mut [u8; 16],
    member: &'a [u8; 256],
    active: &mut [u8; 256],
    mode: &'a [u8; 16],
    waiting: &mut [u8; 16],
    iid: &'a [u32; 128],
    owner: &'a [u8; 128],
    state: &mut [u8; 128],
    highspeed: &'a [u8; 128],
    wholelists: &'a [u8; 16],
    count: &mut [u8; 16],
    tag: &mut [u16; 128],
    len: &mut [u16; 128],
    marked: &mut [u16; 128],
    id: &mut [u32; 128],
    correlation: &mut [u32; 128],
    kind: u32,
    i: usize,
    msg: &[u8],
    hold: &mut [u8],
    words: &mut [u32],
) -> Done
    ensures { MeetsRules (gateway_of asps ases links spare aspid.now up.old member.now active.old mode.now waiting.old iid.now owner.now state.old highspeed.now wholelists.now (units_of count.old tag.old len.old marked.old id.old correlation.old)) (event (happened kind i msg.now) words.old hold.old) words.old words.new hold.old hold.new (outcome_of result (gateway_of asps ases links spare aspid.now up.new member.now active.new mode.now waiting.new iid.now owner.now state.new highspeed.now wholelists.now (units_of count.new tag.new len.new marked.new id.new correlation.new))) }
{
    event_run::m2ua_event_at(
        asps,
        ases,
        links,
        spare,
        aspid,
        up,
        member,
        active,
        mode,
        waiting,
        iid,
        owner,
        state,
        highspeed,
        wholelists,
        count,
        tag,
        len,
        marked,
        id,
        correlation,
        kind,
        i,
        msg,
        hold,
        words,
    )
}
