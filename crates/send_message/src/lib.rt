// The messages that actions to ASPs go out as (Rules 8.8 to 8.16).
#![tactic(auto)]

ghost use Rattle.std.specs.Prelude.{◌≡◌, ◌++◌, ◌+◌, ◌≤◌, length};
ghost use Rattle.laws.specs.Below.{count_below};
ghost use Rattle.codec_wire.specs.Walk.{walk};
ghost use Rattle.codec_put.specs.Bytes.{overlay, pars_bytes};
ghost use Rattle.codec_write.specs.Encode.{size_of, encode};
ghost use Rattle.codec_select.specs.Inner.Picks.{PutBytes, PutPars};
ghost use Rattle.send_message.specs.Inner.Form.{owns, ids_in, number_pars, data_pars, held_pars, said_pars, as_pars, listed_pars, copied_pars, form_pars, data_size, listed_size, FormFits, bare, saying, releasing, listing, copying, form_of};

mod owners;

use codec_select::Which;
use codec_wire::HEADER;
pub use owners::Owners;
use rules_action::{
    ASP_ACTIVE_ACK, ASP_DOWN_ACK, ASP_INACTIVE_ACK, ASP_UP_ACK, Action, BEAT_ACK, DATA_ACK,
    MGMT_ERROR, MGMT_NOTIFY, USER_DATA,
};

// Kept: Batch and Handled are structs of the C interface (include/m2ua.h), with a number for the refusal.
// What a call did that writes many actions: 0, how many actions it went through, and the bytes of their
// messages; or the number of the refusal and zeros.
#[repr(C)]
#[derive(Drop)]
pub struct Batch {
    pub code: u32,
    pub count: usize,
    pub length: usize,
}

// What the call did that runs an event and writes the messages of all its actions: 0, how many actions
// there are, and the bytes of their messages; or the number of the refusal and zeros.
#[repr(C)]
#[derive(Drop)]
pub struct Handled {
    pub refusal: u32,
    pub count: usize,
    pub length: usize,
}

// The tags of the parameters that are made of numbers (Rule 2.11).
const IDS: u16 = 0x1;

const ERROR_CODE: u16 = 0xc;

const STATUS: u16 = 0xd;

const CORRELATION: u16 = 0x13;

// The code of an Error that says which identifier was refused (Rule 8.9).
const REFUSED_IDENTIFIER: u32 = 2;

// A parameter that is one number.
#[derive(Clone, Copy)]
pub struct Number {
    pub tag: u16,
    pub value: u32,
}

// A unit that was held, but for its bytes: the tag of its data, and its correlation id where it has one
// (Rule 5.21).
#[derive(Clone, Copy)]
pub struct Unit {
    pub tag: u16,
    pub correlation: Option<u32>,
}

// What the message of an action is made of: a parameter of one number, the data of a unit by its tag, another
// number, the identifiers of an AS by its index, and the received parameters of two selections, each of them
// or not.
#[derive(Clone, Copy)]
pub struct Form {
    pub class: u8,
    pub msgtype: u8,
    pub one: Option<Number>,
    pub held: Option<u16>,
    pub two: Option<Number>,
    pub listed: Option<usize>,
    pub first: Which,
    pub after: Which,
}

// ---- the form of an action

// No parameters.
fn bare(classtype: u32) -> Form
    ensures { result ≡ bare classtype }
{
    Form {
        class: (classtype / 256 % 256) as u8,
        msgtype: (classtype % 256) as u8,
        one: None,
        held: None,
        two: None,
        listed: None,
        first: Which::Nothing,
        after: Which::Nothing,
    }
}

// One number, or two.
fn say(classtype: u32, one: Number, two: Option<Number>) -> Form
    ensures { result ≡ saying classtype one two }
{
    Form {
        one: Some(one),
        two,
        ..bare(classtype)
    }
}

// One number, and the identifiers of an AS.
fn list(classtype: u32, one: Number, a: u32) -> Form
    ensures { result ≡ listing classtype one a }
{
    Form {
        one: Some(one),
        listed: Some(a as usize),
        ..bare(classtype)
    }
}

// The identifier of a link, a unit of that link that was held, and its correlation id where it has one
// (Rule 8.18).
fn release(classtype: u32, link: u32, u: Unit) -> Form
    ensures { result ≡ releasing classtype link u }
{
    Form {
        one: Some(Number {
            tag: IDS,
            value: link,
        }),
        held: Some(u.tag),
        two: u.correlation.map(|value| Number {
            tag: CORRELATION,
            value,
        }),
        ..bare(classtype)
    }
}

// Parameters of the received message.
fn copy(classtype: u32, first: Which, after: Which) -> Form
    ensures { result ≡ copying classtype first after }
{
    Form {
        first,
        after,
        ..bare(classtype)
    }
}

// The form of an action that passes a message on, or of one that the gateway makes; u is the unit that it
// sends, if it sends one.
pub fn form_of(passed: bool, o: Action, u: Unit) -> Form
    ensures { result ≡ form_of passed o u }
{
    let ct = o.classtype;
    let subject = o.subject;
    let value = o.value;
    if passed {
        return copy(ct, Which::All, Which::Nothing);
    }
    if ct == MGMT_ERROR {
        let code = Number {
            tag: ERROR_CODE,
            value,
        };
        let refused = Number {
            tag: IDS,
            value: subject,
        };
        return say(ct, code, (value == REFUSED_IDENTIFIER).then_some(refused));
    }
    if ct == MGMT_NOTIFY {
        let status = Number { tag: STATUS, value };
        return list(ct, status, subject);
    }
    if (ct == ASP_UP_ACK) | (ct == ASP_DOWN_ACK) {
        return copy(ct, Which::Nothing, Which::Nothing);
    }
    if ct == BEAT_ACK {
        return copy(ct, Which::Heartbeat, Which::Nothing);
    }
    if (ct == ASP_ACTIVE_ACK) | (ct == ASP_INACTIVE_ACK) {
        return copy(ct, Which::Mode, Which::Ids);
    }
    if ct == USER_DATA {
        return release(ct, subject, u);
    }
    let link = Number {
        tag: IDS,
        value: subject,
    };
    let correlation = Number {
        tag: CORRELATION,
        value,
    };
    say(ct, link, (ct == DATA_ACK).then_some(correlation))
}

// ---- its length

// How many of the links AS a owns. An owner is a byte, and 16 are compared at once with the last byte of a,
// which is all of a where it is one byte.
fn count_owned<'a>(owners: Owners<'a>, a: usize) -> usize
    ensures { (result ≡ count_below (owns owners.entry.owner.now a) owners.entry.links) × (result ≤ 128) }
{
    let last = (a % 256) as u8;
    let is_byte = a < 256;
    let mut n: u8 = 0;
    for l in 0..owners.links {
        let owner = owners.owner[l];
        n += u8::from((owner == last) & is_byte);
    }
    usize::from(n)
}

// The bytes of the parameter that lists them.
fn listed_size<'a>(owners: Owners<'a>, listed: Option<usize>) -> usize
    ensures { (result ≡ listed_size owners.entry.owner.now owners.entry.links listed) × (result ≤ 516) }
{
    let Some(a) = listed else {
        return 0;
    };
    let n = count_owned(owners, a);
    if n == 0 {
        return 0;
    }
    4 + 4 * n
}

// The bytes of the parameter of a unit's data, whose value has n.
fn data_size(held: Option<u16>, n: usize) -> usize
    requires { n ≤ 65531 }
    ensures { (result ≡ data_size held n) × (result ≤ 65536) }
{
    let Some(_) = held else {
        return 0;
    };
    (n + 7) / 4 * 4
}

// The length of the message of a form; `body` is the data of a unit.
pub fn size_of<'a>(f: Form, msg: &[u8], body: &[u8], owners: Owners<'a>) -> usize
    requires { (length body.now ≤ 65531) × (size_of (form_pars owners.iid.now owners.owner.now owners.links (walk msg.now 8).pars body.now f) ≤ 2048) }
    ensures { result ≡ size_of (form_pars owners.entry.iid.now owners.entry.owner.now owners.entry.links (walk msg.now 8).pars body.now f) }
{
    let first = f.first;
    let after = f.after;
    let numbers = 8 * usize::from(f.one.is_some())
        + data_size(f.held, body.len())
        + 8 * usize::from(f.two.is_some());
    let ids = listed_size(owners, f.listed);
    let copies = codec_select::picked_size(msg, first);
    HEADER + numbers + ids + copies + codec_select::picked_size(msg, after)
}

// ---- its bytes

// A parameter of one number where there is one; the position after it.
fn put_number_if(out: &mut [u8], at: usize, n: Option<Number>) -> usize
    requires { at + length (pars_bytes (number_pars n)) ≤ length out.old }
    ensures { PutPars out.old at (number_pars n) result out.new }
{
    let Some(n) = n else {
        return at;
    };
    codec_put::put_number(out, at, n.tag, n.value)
}

// The data of a unit where there is one; the position after it.
fn put_data_if(out: &mut [u8], at: usize, tag: Option<u16>, body: &[u8]) -> usize
    requires { (length body.now ≤ 65531) × (at + length (pars_bytes (data_pars body.now tag)) ≤ length out.old) }
    ensures { PutPars out.old at (data_pars body.now tag) result out.new }
{
    let Some(tag) = tag else {
        return at;
    };
    codec_put::put_param(out, at, tag, body)
}

// The data of a unit and the second number.
fn put_unit(out: &mut [u8], at: usize, body: &[u8], f: Form) -> usize
    requires { (length body.now ≤ 65531) × (at + length (pars_bytes (held_pars body.now f)) ≤ length out.old) }
    ensures { PutPars out.old at (held_pars body.now f) result out.new }
{
    let next = put_data_if(out, at, f.held, body);
    put_number_if(out, next, f.two)
}

// The parameters of one number each, with the data of a unit between them.
fn put_said(out: &mut [u8], at: usize, body: &[u8], f: Form) -> usize
    requires { (length body.now ≤ 65531) × (at + length (pars_bytes (said_pars body.now f)) ≤ length out.old) }
    ensures { PutPars out.old at (said_pars body.now f) result out.new }
{
    let next = put_number_if(out, at, f.one);
    put_unit(out, next, body, f)
}

// The identifiers of AS a's links, one after the other; the position after them.
fn put_owned<'a>(out: &mut [u8], from: usize, owners: Owners<'a>, a: usize) -> usize
    requires { from + length (ids_in owners.iid.now owners.owner.now owners.links a) ≤ length out.old }
    ensures { PutBytes out.old from (ids_in owners.entry.iid.now owners.entry.owner.now owners.entry.links a) result out.new }
{
    let mut at = from;
    for l in 0..owners.links {
        if usize::from(owners.owner[l]) == a {
            codec_put::put32(out, at, owners.iid[l]);
            at += 4;
        }
    }
    at
}

// The parameter that lists them; none where there are none.
fn put_listed<'a>(out: &mut [u8], at: usize, owners: Owners<'a>, listed: Option<usize>) -> usize
    requires { at + length (pars_bytes (as_pars owners.iid.now owners.owner.now owners.links listed)) ≤ length out.old }
    ensures { PutPars out.old at (as_pars owners.entry.iid.now owners.entry.owner.now owners.entry.links listed) result out.new }
{
    let Some(a) = listed else {
        return at;
    };
    let n = listed_size(owners, listed);
    if n == 0 {
        return at;
    }
    codec_put::put_head(out, at, IDS, n as u16);
    put_owned(out, at + 4, owners, a)
}

// The parameters of the received message.
fn put_copies(out: &mut [u8], at: usize, msg: &[u8], f: Form) -> usize
    requires { at + length (pars_bytes (copied_pars (walk msg.now 8).pars f)) ≤ length out.old }
    ensures { PutPars out.old at (copied_pars (walk msg.now 8).pars f) result out.new }
{
    let first = f.first;
    let after = f.after;
    let next = codec_select::put_picked(out, at, msg, first);
    codec_select::put_picked(out, next, msg, after)
}

// The identifiers of an AS, and behind them the parameters of the received message.
pub fn put_rest<'a>(out: &mut [u8], at: usize, msg: &[u8], owners: Owners<'a>, f: Form) -> usize
    requires { at + length (pars_bytes (listed_pars owners.iid.now owners.owner.now owners.links f ++ copied_pars (walk msg.now 8).pars f)) ≤ length out.old }
    ensures { PutPars out.old at (listed_pars owners.entry.iid.now owners.entry.owner.now owners.entry.links f ++ copied_pars (walk msg.now 8).pars f) result out.new }
{
    let next = put_listed(out, at, owners, f.listed);
    put_copies(out, next, msg, f)
}

// All parameters.
fn put_pars<'a>(
    out: &mut [u8],
    at: usize,
    msg: &[u8],
    body: &[u8],
    owners: Owners<'a>,
    f: Form,
) -> usize
    requires { (length body.now ≤ 65531) × (at + length (pars_bytes (form_pars owners.iid.now owners.owner.now owners.links (walk msg.now 8).pars body.now f)) ≤ length out.old) }
    ensures { PutPars out.old at (form_pars owners.entry.iid.now owners.entry.owner.now owners.entry.links (walk msg.now 8).pars body.now f) result out.new }
{
    let next = put_said(out, at, body, f);
    put_rest(out, next, msg, owners, f)
}

// The message of a form, whose length the caller has, written at a position; the position after it. `msg` is
// the received message whose parameters it repeats, `body` the data of the unit that it sends.
pub fn put_form<'a>(
    f: Form,
    size: usize,
    msg: &[u8],
    body: &[u8],
    owners: Owners<'a>,
    out: &mut [u8],
    at: usize,
) -> usize
    requires { FormFits owners.iid.now owners.owner.now owners.links (walk msg.now 8).pars body.now f size at out.old }
    ensures { (result ≡ at + size) × (out.new ≡ overlay out.old at (encode f.class f.msgtype (form_pars owners.entry.iid.now owners.entry.owner.now owners.entry.links (walk msg.now 8).pars body.now f))) }
{
    codec_put::put_header(out, at, f.class, f.msgtype, size as u32);
    put_pars(out, at + HEADER, msg, body, owners, f)
}
