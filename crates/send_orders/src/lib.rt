// Actions as bytes (Rules 8.15, 8.16 and 8.18): the event is run, and the message of the action at a place
// written, or those of as many actions as go in.
#![tactic(auto)]

ghost use Rattle.std.specs.Prelude.{◌≡◌, true, cond, ◌+◌, ◌-◌, ◌<◌, ◌≤◌, leb, length, take, drop};
ghost use Rattle.codec_wire.specs.Walk.{walk};
ghost use Rattle.codec_put.specs.Bytes.{overlay};
ghost use Rattle.rules_servers.specs.Changed.{column_of};
ghost use Rattle.send_good_ids.specs.Inner.Made.{ModeFits};
ghost use Rattle.event_asked.specs.Happened.{happened};
ghost use Rattle.state_tables.specs.State.{gateway_of, units_of};
ghost use Rattle.send_message.specs.Send.{Sends, SendsMany};
ghost use Rattle.send_message.specs.Handle.{Handles};
ghost use Rattle.send_message.specs.Inner.Kinds.{lent_by};
ghost use Rattle.send_orders.specs.Inner.Part.{part_of, PutIf, made_from, FitsIn, Again, lent_in, part_in, Ready};
ghost use Rattle.send_orders.specs.Inner.Alike.{are_alike, repeats_in};
ghost use Rattle.send_orders.specs.Inner.Parts.{is_part_in, GoodIf, WithinBlock, repeated_of};
ghost use Rattle.send_orders.specs.Inner.Batch.{Ended};
ghost use Rattle.send_orders.specs.Inner.Refusals.{number, some_reached, batch_of, sent_of, written_of, handled_of};
ghost use Rattle.send_orders.specs.Inner.Behind.{lines_in, CanWrite, Wrote};
ghost use Rattle.send_orders.specs.Inner.Handled.{code_of};

use codec_write::Written;
use rules_action::{ASP_ACTIVE_ACK, ASP_INACTIVE_ACK, Action, MGMT_ERROR, USER_DATA};
use send_message::{Batch, Handled, Owners};
use send_unit::{Columns, Sent};
use state_lookup::{Identifiers, Links};

// The number of an event's refusal for want of words.
const SHORT_LIST: u32 = 101;

const LINK_SIDE: u32 = 255;

// Room for the messages of every event: 2,048 bytes for each of 386 actions.
const ROOM_BYTES: usize = 790528;

// Why no message is written: the event, or a batch, is refused for this number; the buffer is short; there is
// no action at the place that goes to an ASP.
#[derive(Clone, Copy)]
pub enum Refusal {
    Event(u32),
    ShortBuffer,
    NoSuchAction,
}

impl From<Refusal> for u32 {
    fn from(r: Refusal) -> u32
        ensures { result ≡ number r }
    {
        match r {
            Refusal::Event(n) => n,
            Refusal::ShortBuffer => 103,
            Refusal::NoSuchAction => 104,
        }
    }
}

// The message whose parameters go out again: none where the event has none.
#[tactic(auto, unfolding(send_message::specs::Inner::Kinds::lent_by))]
fn received(kind: u32, msg: &[u8]) -> &[u8]
    ensures { result.now ≡ lent_by kind msg.now }
{
    if kind == event_asked::MESSAGE {
        return msg;
    }
    if kind == event_asked::LINK_MESSAGE {
        return msg;
    }
    &msg[..0]
}

// Whether identifiers of a message were refused beside others that were not: an Error stands behind the Ack
// of an Active or Inactive.
fn in_part(words: &[u32; 1544], count: usize) -> bool
    ensures { result ≡ is_part_in words.now count }
{
    (1 < count)
        & ((words[1] == ASP_ACTIVE_ACK) | (words[1] == ASP_INACTIVE_ACK))
        & (words[5] == MGMT_ERROR)
}

// Then the Ack repeats the good ones alone: a message that names these is written into a block; its length,
// where there is one.
fn good_if<'a>(
    part: bool,
    block: &mut [u8; 544],
    msg: &[u8],
    p: usize,
    member: &'a [u8; 256],
    links: Links<'a>,
) -> Option<usize>
    requires { (length block.old ≡ 544) × (part ≡ true → (p < 16) × ModeFits (walk msg.now 8).pars) }
    ensures { GoodIf part links.entry.ids.iid.now links.entry.owner.now links.entry.ids.count (column_of member.now p) (walk msg.now 8).pars block.new result }
{
    if part {
        let mine = event_asps::ases_of(member, p);
        return Some(send_good_ids::put_good(block, msg, links, mine));
    }
    None
}

// The message whose parameters go out again: that one, or the received one.
fn repeated<'a>(kind: u32, msg: &'a [u8], block: &'a [u8], good: Option<usize>) -> &'a [u8]
    requires { WithinBlock block.now good }
    ensures { result.now ≡ repeated_of block.now (lent_by kind msg.now) good }
{
    let Some(n) = good else {
        return received(kind, msg);
    };
    &block[..n]
}

// What messages are made of beside the units: the links, the message whose parameters go out again, and the
// hold.
#[derive(Clone, Copy)]
pub struct Sources<'a, 'b> {
    pub owners: Owners<'a>,
    pub msg: &'b [u8],
    pub hold: &'b [u8],
}

// How many bytes are written for an action: none where it goes to the link side.
fn part_size<'a>(x: Sent, msg: &[u8], body: &[u8], owners: Owners<'a>) -> usize
    requires { (length body.now ≤ 273) × (length (part_of owners.iid.now owners.owner.now owners.links msg.now body.now x) ≤ 2048) }
    ensures { result ≡ length (part_of owners.entry.iid.now owners.entry.owner.now owners.entry.links msg.now body.now x) }
{
    let o = x.o;
    if o.to == LINK_SIDE {
        return 0;
    }
    let form = send_message::form_of(x.passed, o, x.unit);
    send_message::size_of(form, msg, body, owners)
}

// An action whose message is made: its unit's index, whether it passes the received message on, and where it
// goes.
#[derive(Clone, Copy)]
pub struct Turn {
    pub o: Action,
    pub index: usize,
    pub passed: bool,
    pub at: usize,
}

// What is written for an action, where it goes in; the bytes that it has.
fn put_new<'a, 'b, 'c>(t: Turn, s: Sources<'a, 'b>, units: Columns<'c>, out: &mut [u8]) -> usize
    requires { FitsIn s units t out.old }
    ensures { PutIf out.old t.at (made_from s.entry units.entry t) result out.new }
{
    let o = t.o;
    let x = send_unit::sent_at(o, t.passed, t.index, units);
    let shown = send_unit::shown(s.msg, s.hold, x.held);
    let size = part_size(x, s.msg, shown, s.owners);
    if out.len() - t.at < size {
        return size;
    }
    if o.to == LINK_SIDE {
        return size;
    }
    let form = send_message::form_of(x.passed, o, x.unit);
    send_message::put_form(form, size, s.msg, shown, s.owners, out, t.at);
    size
}

// How far a batch came: actions gone through, bytes written.
#[derive(Clone, Copy)]
pub struct Reached {
    count: usize,
    length: usize,
}

// What a batch goes through: so many actions, from a place on, and whether they pass the received message on.
#[derive(Clone, Copy)]
pub struct Run {
    pub count: usize,
    pub place: usize,
    pub passed: bool,
}

// Whether two actions have the same message: both go to an ASP, nothing but the ASP differs, and neither
// sends a unit.
fn alike(o: Action, last: Action, passed: bool) -> bool
    ensures { result ≡ are_alike passed o last }
{
    (o.to != LINK_SIDE)
        & (last.to != LINK_SIDE)
        & (o.classtype == last.classtype)
        & (o.subject == last.subject)
        & (o.value == last.value)
        & (passed | (o.classtype != USER_DATA))
}

// Whether the action n places on has the message of the one before it. The first has none before it.
fn repeats(words: &[u32; 1544], place: usize, n: usize, passed: bool) -> bool
    requires { place + n < 386 }
    ensures { result ≡ repeats_in passed words.now place n }
{
    if n == 0 {
        return false;
    }
    alike(
        send_unit::action_at(words, place + n),
        send_unit::action_at(words, place + n - 1),
        passed,
    )
}

// The size bytes before a position, written from there on again.
fn again(out: &mut [u8], at: usize, size: usize)
    requires { (size ≤ at) × (at + size ≤ length out.old) }
    ensures { out.new ≡ overlay out.old at (take size (drop (at - size) out.old)) }
{
    let (written, rest) = out.split_at_mut(at);
    rest[..size].copy_from_slice(&written[at - size..]);
}

// The same, where they go in; how many they are.
fn put_again(out: &mut [u8], at: usize, size: usize) -> usize
    requires { (size ≤ at) × (at ≤ length out.old) }
    ensures { PutIf out.old at (take size (drop (at - size) out.old)) result out.new }
{
    if out.len() - at < size {
        return size;
    }
    again(out, at, size);
    size
}

// What is written for an action, where it goes in; the bytes that it has. Where the action before it has the
// same message, of so many bytes, these are copied and not made anew.
fn put_turn<'a, 'b, 'c>(
    t: Turn,
    before: Option<usize>,
    s: Sources<'a, 'b>,
    units: Columns<'c>,
    out: &mut [u8],
) -> usize
    requires { FitsIn s units t out.old × Again out.old t.at (made_from s units t) before }
    ensures { PutIf out.old t.at (made_from s.entry units.entry t) result out.new }
{
    let Some(size) = before else {
        return put_new(t, s, units, out);
    };
    put_again(out, t.at, size)
}

// From a place on what is written for each action, one behind the other, and its length: up to the last
// action, the last length of the list, or the first message that does not go in. `list` has the indices of
// the units that go out, of which d are out.
fn put_many<'a, 'b, 'c>(
    run: Run,
    words: &[u32; 1544],
    list: &[u8],
    s: Sources<'a, 'b>,
    units: Columns<'c>,
    lens: &mut [u32],
    out: &mut [u8],
) -> Reached
    requires { Ready (lent_in run words.now list.now s units) }
    ensures few { run.place + result.count ≤ run.count }
    ensures ended { Ended (λ j. part_in (lent_in run words.now list.now s.entry units.entry) (run.place + j)) (λ m. leb run.count (run.place + m)) lens.old out.old result.count result.length lens.new out.new }
{
    let place = run.place;
    let most = (run.count - place).min(lens.len());
    let mut d = send_unit::data_before(words, place);
    let mut at: usize = 0;
    let mut size: usize = 0;
    for n in 0..most {
        let o = send_unit::action_at(words, place + n);
        let turn = Turn {
            o,
            index: send_unit::index_at(list, d),
            passed: run.passed,
            at,
        };
        let before = repeats(words, place, n, run.passed).then_some(size);
        size = put_turn(turn, before, s, units, out);
        if out.len() - at < size {
            return Reached {
                count: n,
                length: at,
            };
        }
        lens[n] = size as u32;
        d += usize::from(send_unit::is_data(o));
        at += size;
    }
    Reached {
        count: most,
        length: at,
    }
}

// What an event gave: its kind and index, the number of its actions, the place from which on they are
// written, and how many links there are.
#[derive(Clone, Copy)]
pub struct Given {
    pub kind: u32,
    pub index: usize,
    pub count: usize,
    pub place: usize,
    pub links: u8,
}

// The state before an event that was run, as far as messages are made of it but for the units, and the counts
// of units held behind the event.
#[derive(Clone, Copy)]
pub struct Before<'a> {
    pub member: &'a [u8; 256],
    pub iid: &'a [u32; 128],
    pub owner: &'a [u8; 128],
    pub after: &'a [u8; 16],
}

// The same for an event that was run.
fn put_from<'a, 'b, 'c>(
    t: Given,
    words: &[u32; 1544],
    msg: &'b [u8],
    hold: &'b [u8],
    b: Before<'a>,
    units: Columns<'c>,
    lens: &mut [u32],
    out: &mut [u8],
) -> Reached
    requires { CanWrite t (lines_in b units) words.now msg.now hold.now }
    ensures few { t.place + result.count ≤ t.count }
    ensures wrote { Wrote t (lines_in b.entry units.entry) words.now msg.now hold.now lens.old out.old result.count result.length lens.new out.new }
{
    let kind = t.kind;
    let run = Run {
        count: t.count,
        place: t.place,
        passed: kind == event_asked::LINK_MESSAGE,
    };
    let ids = Identifiers {
        iid: b.iid,
        count: usize::from(t.links),
    };
    let links = Links {
        ids,
        owner: b.owner,
    };
    let owners = Owners {
        iid: b.iid,
        owner: b.owner,
        links: ids.count,
    };
    let list = send_unit::gone(units.counts, b.after);
    let part = (kind == event_asked::MESSAGE) & in_part(words, t.count);
    let mut block = [0u8; 544];
    let good = good_if(part, &mut block, msg, t.index, b.member, links);
    let sources = Sources {
        owners,
        msg: repeated(kind, msg, &block, good),
        hold,
    };
    put_many(run, words, &list, sources, units, lens, out)
}

// ---- the actions of an event that is not kept: the state is only read

// Kept: the entries m2ua_.._at take the state column by column, as the C interface (include/m2ua.h) has it.

// Whether an action went in.
fn some_reached(r: Reached) -> Result<Reached, Refusal>
    ensures { result ≡ some_reached r }
{
    if r.count == 0 {
        return Err(Refusal::ShortBuffer);
    }
    Ok(r)
}

// What is handed back of a batch.
fn batch_of(r: Result<Reached, Refusal>) -> Batch
    ensures { result ≡ batch_of r }
{
    match r {
        Ok(reached) => Batch {
            code: 0,
            count: reached.count,
            length: reached.length,
        },
        Err(refusal) => Batch {
            code: u32::from(refusal),
            count: 0,
            length: 0,
        },
    }
}

// From a place of an event's actions on, the messages of as many as go into a buffer, and the length of
// each (Rule 8.16). The event is run once, with a list of words of its own, on copies of the columns that
// events change; of the hold, which only a unit that comes in changes, it is lent nothing.
pub fn m2ua_orders_at<'a>(
    asps: u8,
    ases: u8,
    links: u8,
    spare: u8,
    aspid: &'a [u32; 16],
    up: &'a [u8; 16],
    member: &'a [u8; 256],
    active: &'a [u8; 256],
    mode: &'a [u8; 16],
    waiting: &'a [u8; 16],
    iid: &'a [u32; 128],
    owner: &'a [u8; 128],
    state: &'a [u8; 128],
    highspeed: &'a [u8; 128],
    wholelists: &'a [u8; 16],
    count: &'a [u8; 16],
    tag: &'a [u16; 128],
    len: &'a [u16; 128],
    marked: &'a [u16; 128],
    id: &'a [u32; 128],
    correlation: &'a [u32; 128],
    kind: u32,
    i: usize,
    msg: &'a [u8],
    hold: &'a [u8],
    place: usize,
    lens: &mut [u32],
    out: &mut [u8],
) -> Batch
    ensures { SendsMany (gateway_of asps ases links spare aspid.now up.now member.now active.now mode.now waiting.now iid.now owner.now state.now highspeed.now wholelists.now (units_of count.now tag.now len.now marked.now id.now correlation.now)) hold.now (happened kind i msg.now) place lens.old out.old result lens.new out.new }
{
    let mut new_up = *up;
    let mut new_active = *active;
    let mut new_waiting = *waiting;
    let mut new_state = *state;
    let mut new_count = *count;
    let mut new_tag = *tag;
    let mut new_len = *len;
    let mut new_marked = *marked;
    let mut new_id = *id;
    let mut new_correlation = *correlation;
    let mut words = [0u32; 1544];
    let mut none = [0u8; 0];
    let done = event_run::run(
        asps,
        ases,
        links,
        spare,
        aspid,
        &mut new_up,
        member,
        &mut new_active,
        mode,
        &mut new_waiting,
        iid,
        owner,
        &mut new_state,
        highspeed,
        wholelists,
        &mut new_count,
        &mut new_tag,
        &mut new_len,
        &mut new_marked,
        &mut new_id,
        &mut new_correlation,
        kind,
        i,
        msg,
        &mut none,
        hold.len(),
        &mut words,
    );
    if done.refusal != 0 {
        return batch_of(Err(Refusal::Event(done.refusal)));
    }
    if done.count <= place {
        return batch_of(Err(Refusal::NoSuchAction));
    }
    let given = Given {
        kind,
        index: i,
        count: done.count,
        place,
        links,
    };
    let units = Columns {
        counts: count,
        tags: tag,
        lengths: len,
        marks: marked,
        correlations: correlation,
    };
    let before = Before {
        member,
        iid,
        owner,
        after: &new_count,
    };
    let reached = put_from(given, &words, msg, hold, before, units, lens, out);
    batch_of(some_reached(reached))
}

// The bytes of the one action of a batch; those of an action to the link side are none.
fn sent_of(b: Batch) -> Result<usize, Refusal>
    ensures { result ≡ sent_of b }
{
    if b.code != 0 {
        return Err(Refusal::Event(b.code));
    }
    if b.length == 0 {
        return Err(Refusal::NoSuchAction);
    }
    Ok(b.length)
}

// What is handed back of one action.
fn written_of(r: Result<usize, Refusal>) -> Written
    ensures { result ≡ written_of r }
{
    match r {
        Ok(length) => Written { code: 0, length },
        Err(refusal) => Written {
            code: u32::from(refusal),
            length: 0,
        },
    }
}

// The message of the action at a place of an event's actions, written at a buffer's start (Rule 8.15): the
// first from that place on. One to the link side has no bytes.
pub fn m2ua_order_at<'a>(
    asps: u8,
    ases: u8,
    links: u8,
    spare: u8,
    aspid: &'a [u32; 16],
    up: &'a [u8; 16],
    member: &'a [u8; 256],
    active: &'a [u8; 256],
    mode: &'a [u8; 16],
    waiting: &'a [u8; 16],
    iid: &'a [u32; 128],
    owner: &'a [u8; 128],
    state: &'a [u8; 128],
    highspeed: &'a [u8; 128],
    wholelists: &'a [u8; 16],
    count: &'a [u8; 16],
    tag: &'a [u16; 128],
    len: &'a [u16; 128],
    marked: &'a [u16; 128],
    id: &'a [u32; 128],
    correlation: &'a [u32; 128],
    kind: u32,
    i: usize,
    msg: &'a [u8],
    hold: &'a [u8],
    place: usize,
    out: &mut [u8],
) -> Written
    ensures { Sends (gateway_of asps ases links spare aspid.now up.now member.now active.now mode.now waiting.now iid.now owner.now state.now highspeed.now wholelists.now (units_of count.now tag.now len.now marked.now id.now correlation.now)) hold.now (happened kind i msg.now) place out.old result out.new }
{
    let mut one = [0u32; 1];
    let batch = m2ua_orders_at(
        asps,
        ases,
        links,
        spare,
        aspid,
        up,
        member,
        active,
        mode,
        waiting,
        iid,
        owner,
        state,
        highspeed,
        wholelists,
        count,
        tag,
        len,
        marked,
        id,
        correlation,
        kind,
        i,
        msg,
        hold,
        place,
        &mut one,
        out,
    );
    written_of(sent_of(batch))
}

// ---- the event and its messages in one call

// The refusal of the one call: it lends a list of words that is too short only where the buffer is.
fn refused(refusal: u32) -> Refusal
    ensures { number result ≡ code_of refusal }
{
    if refusal == SHORT_LIST {
        return Refusal::ShortBuffer;
    }
    Refusal::Event(refusal)
}

// What is handed back of all.
fn handled_of(r: Result<Reached, Refusal>) -> Handled
    ensures { result ≡ handled_of r }
{
    match r {
        Ok(reached) => Handled {
            refusal: 0,
            count: reached.count,
            length: reached.length,
        },
        Err(refusal) => Handled {
            refusal: u32::from(refusal),
            count: 0,
            length: 0,
        },
    }
}

// The event, on the state where it lies, and the messages of all its actions (Rule 8.20). What the bytes
// are made of and events change, the units' columns, is copied out before it; the hold stays where there
// are actions.
pub fn m2ua_handle_at<'a>(
    asps: u8,
    ases: u8,
    links: u8,
    spare: u8,
    aspid: &'a [u32; 16],
    up: &mut [u8; 16],
    member: &'a [u8; 256],
    active: &mut [u8; 256],
    mode: &'a [u8; 16],
    waiting: &mut [u8; 16],
    iid: &'a [u32; 128],
    owner: &'a [u8; 128],
    state: &mut [u8; 128],
    highspeed: &'a [u8; 128],
    wholelists: &'a [u8; 16],
    count: &mut [u8; 16],
    tag: &mut [u16; 128],
    len: &mut [u16; 128],
    marked: &mut [u16; 128],
    id: &mut [u32; 128],
    correlation: &mut [u32; 128],
    kind: u32,
    i: usize,
    msg: &[u8],
    hold: &mut [u8],
    words: &mut [u32; 1544],
    lens: &mut [u32; 386],
    out: &mut [u8],
) -> Handled
    ensures { Handles (gateway_of asps ases links spare aspid.now up.old member.now active.old mode.now waiting.old iid.now owner.now state.old highspeed.now wholelists.now (units_of count.old tag.old len.old marked.old id.old correlation.old)) (happened kind i msg.now) hold.old words.old lens.old out.old result (gateway_of asps ases links spare aspid.now up.new member.now active.new mode.now waiting.new iid.now owner.now state.new highspeed.now wholelists.now (units_of count.new tag.new len.new marked.new id.new correlation.new)) hold.new words.new lens.new out.new }
{
    let size = hold.len();
    if out.len() < ROOM_BYTES {
        // With no words it is refused: nothing changes.
        let mut no_words = [0u32; 0];
        let done = event_run::run(
            asps,
            ases,
            links,
            spare,
            aspid,
            up,
            member,
            active,
            mode,
            waiting,
            iid,
            owner,
            state,
            highspeed,
            wholelists,
            count,
            tag,
            len,
            marked,
            id,
            correlation,
            kind,
            i,
            msg,
            hold,
            size,
            &mut no_words,
        );
        return handled_of(Err(refused(done.refusal)));
    }
    let counts = *count;
    let tags = *tag;
    let lengths = *len;
    let marks = *marked;
    let correlations = *correlation;
    let done = event_run::run(
        asps,
        ases,
        links,
        spare,
        aspid,
        up,
        member,
        active,
        mode,
        waiting,
        iid,
        owner,
        state,
        highspeed,
        wholelists,
        count,
        tag,
        len,
        marked,
        id,
        correlation,
        kind,
        i,
        msg,
        hold,
        size,
        words,
    );
    if done.refusal != 0 {
        return handled_of(Err(refused(done.refusal)));
    }
    if done.count == 0 {
        return handled_of(Ok(Reached {
            count: 0,
            length: 0,
        }));
    }
    let given = Given {
        kind,
        index: i,
        count: done.count,
        place: 0,
        links,
    };
    let units = Columns {
        counts: &counts,
        tags: &tags,
        lengths: &lengths,
        marks: &marks,
        correlations: &correlations,
    };
    let before = Before {
        member,
        iid,
        owner,
        after: count,
    };
    let reached = put_from(given, words, msg, hold, before, units, lens, out);
    handled_of(Ok(reached))
}
