// Reads M2UA messages: the verdict and the meaning of any bytes.
#![tactic(auto)]

ghost use Rattle.std.specs.Prelude.{◌≡◌, ◌+◌, ◌≤◌, ◌<◌, cond, false, [], length, get_or, OnOk, OnErr, IfOk};
ghost use Rattle.laws.specs.Choice.{◌or_else◌};
ghost use Rattle.codec_wire.specs.Refusal.{number, code};
ghost use Rattle.codec_wire.specs.Walk.{walk};
ghost use Rattle.codec_parameter.specs.Table.{table, row_in};
ghost use Rattle.codec_parameter.specs.Inner.Slot.{slot, info_of, packed_use};
ghost use Rattle.codec_parameter.specs.Check.{par_code};
ghost use Rattle.codec_read.specs.Verdict.{exactly, head, last_checks};
ghost use Rattle.codec_read.specs.Meaning.{unreadable, meaning, outcome, reading_of, found_in, data_at, data_of};
ghost use Rattle.codec_read.specs.Inner.Seen.{none, after, after_at, sequence_at, end_at, meaning_at, outcome_at, row_code, kind_outcome, checks_outcome, needs_none, is_bare};

use codec_parameter::RowInfo;
use codec_wire::{HEADER, MOST, Refusal, Step};

// The slots of the tags that are asked for.
const ID: usize = 1;

const RANGE: usize = 8;

const MODE: usize = 11;

const ASP_ID: usize = 17;

const CORRELATION: usize = 19;

const STATE: usize = 22;

const ACTION: usize = 26;

const SEQUENCE: usize = 27;

const RESULT: usize = 28;

// The class of the link messages, and two of its types.
const LINK_CLASS: u8 = 6;

const RETRIEVAL_REQUEST: u8 = 10;

const RETRIEVAL_CONFIRM: u8 = 11;
// What a retrieval asks for, and that it was done.
const GET_BSN: u32 = 1;

const GET_MESSAGES: u32 = 2;

const DONE: u32 = 0;

// What reading a message gives. A refused message has its number in `code`, and zeros.
// Kept: the C interface (include/m2ua.h) has these columns, a flag beside its number and 0 for none.
#[repr(C)]
#[derive(Clone, Copy, Default)]
pub struct Reading {
    // 0, or the number of the refusal
    pub code: u32,
    pub class: u32,
    pub msgtype: u32,
    // 1 where identifiers or ranges of them are given, else 0
    pub ids: u32,
    // the first interface identifier
    pub id: u32,
    // the traffic mode; 0 where none is given
    pub mode: u32,
    // 1 where an ASP identifier is given, and it
    pub identified: u32,
    pub aspid: u32,
    // 1 where a correlation id is given, and it
    pub correlated: u32,
    pub correlation: u32,
    // of a State Request or Confirm
    pub state: u32,
    // of a Retrieval Request or Confirm
    pub retrieval: u32,
    // 1 where a sequence number is given, and it
    pub sequenced: u32,
    pub sequence: u32,
}

// What is kept of the parameters passed. By slot: whether a tag of the slot was there, and the number of the
// first.
// Kept: two tables; one of options takes 256 bytes to clear for each message, these take 160.
#[derive(Drop)]
pub struct Seen {
    pub met: [bool; 32],
    pub words: [u32; 32],
    // no parameter was passed
    pub first: bool,
}

impl Seen {
    // Before the first parameter.
    pub fn none() -> Seen
        ensures { result ≡ none }
    {
        Seen {
            met: [false; 32],
            words: [0; 32],
            first: true,
        }
    }

    // One parameter more, of a message of a row whose uses are packed: it is refused, or its tag and its
    // number are kept.
    pub fn pass(&mut self, uses: u64, t: u16, v: &[u8]) -> Result<(), Refusal>
        ensures checked { code result ≡ par_code (packed_use uses 1) (packed_use uses (slot t)) self.old.first (get_or self.old.met (slot t) false) t v.now }
        ensures kept { OnOk result (self.new ≡ after self.old t v.now) }
        ensures refused { OnErr result (self.new ≡ self.old) }
    {
        let k = codec_parameter::slot_of(t);
        codec_parameter::par_at(uses, self.first, self.met[k], k, t, v)?;
        self.keep(k, v);
        Ok(())
    }

    // One parameter more is kept, at the slot of its tag: the number of a slot is that of the first there.
    fn keep(&mut self, k: usize, v: &[u8])
        requires { k < 32 }
        ensures { self.new ≡ after_at self.old k v.now }
    {
        if !self.met[k] {
            self.words[k] = head_of(v);
            self.met[k] = true;
        }
        self.first = false;
    }

    // Check 8, of a row whose mandatory slots are packed: a missing mandatory parameter, then the sequence
    // number rules.
    #[tactic(auto, unfolding(crate::specs::Inner::Seen::end_at, codec_parameter::specs::Inner::Slot::slot))]
    pub fn end_code(&self, musts: u32, c: u8, t: u8) -> Result<(), Refusal>
        ensures { code result ≡ end_at musts c t self.now.met self.now.words }
    {
        if !codec_parameter::musts_met(musts, &self.met) {
            return Err(Refusal::MissingParameter);
        }
        sequence_code(
            c,
            t,
            self.words[ACTION],
            self.words[RESULT],
            self.met[SEQUENCE],
        )
    }

    // The meaning of an accepted message. The state is read ahead of the branches (finish): read here, the
    // compiler would load it together with the correlation id, across two stores, which takes 5 ns.
    #[tactic(auto, unfolding(crate::specs::Inner::Seen::meaning_at, codec_parameter::specs::Inner::Slot::slot))]
    fn meaning_at(&self, c: u8, t: u8, state: u32) -> Reading
        requires { state ≡ get_or self.now.words (slot 0x302) 0 }
        ensures { result ≡ meaning_at c t self.now.met self.now.words }
    {
        Reading {
            code: 0,
            class: u32::from(c),
            msgtype: u32::from(t),
            ids: u32::from(self.met[ID] | self.met[RANGE]),
            id: self.words[ID],
            mode: self.words[MODE],
            identified: u32::from(self.met[ASP_ID]),
            aspid: self.words[ASP_ID],
            correlated: u32::from(self.met[CORRELATION]),
            correlation: self.words[CORRELATION],
            state,
            retrieval: self.words[ACTION],
            sequenced: u32::from(self.met[SEQUENCE]),
            sequence: self.words[SEQUENCE],
        }
    }
}

// A refused message: its number alone.
fn refused(r: Refusal) -> Reading
    ensures { result ≡ unreadable (number r) }
{
    Reading {
        code: u32::from(r),
        ..Reading::default()
    }
}

// A sequence number where one is wanted, and only there.
fn exact(wanted: bool, given: bool) -> Result<(), Refusal>
    ensures { code result ≡ exactly wanted given }
{
    if wanted {
        if given {
            return Ok(());
        }
        return Err(Refusal::MissingParameter);
    }
    if given {
        return Err(Refusal::UnexpectedParameter);
    }
    Ok(())
}

// The sequence number rules.
#[tactic(auto, unfolding(crate::specs::Inner::Seen::sequence_at))]
fn sequence_code(c: u8, t: u8, retrieval: u32, res: u32, given: bool) -> Result<(), Refusal>
    ensures { code result ≡ sequence_at c t retrieval res given }
{
    if c == LINK_CLASS {
        if t == RETRIEVAL_REQUEST {
            return exact(retrieval == GET_MESSAGES, given);
        }
        if t == RETRIEVAL_CONFIRM {
            if retrieval == GET_BSN {
                return exact(res == DONE, given);
            }
            return exact(false, given);
        }
        return Ok(());
    }
    Ok(())
}

// The number that a value of four bytes or more begins with.
#[tactic(auto, unfolding(crate::specs::Verdict::head))]
fn head_of(v: &[u8]) -> u32
    ensures { result ≡ head v.now }
{
    if v.len() < 4 {
        return 0;
    }
    codec_wire::get32(v, 0)
}

// The walk has ended, and what ended it may be a fault.
fn finish(fault: Result<(), Refusal>, musts: u32, c: u8, t: u8, seen: &Seen) -> Reading
    ensures { result ≡ outcome_at (code fault or_else end_at musts c t seen.now.met seen.now.words) c t seen.now.met seen.now.words }
{
    let state = seen.words[STATE];
    match fault.and(seen.end_code(musts, c, t)) {
        Ok(()) => seen.meaning_at(c, t, state),
        Err(r) => refused(r),
    }
}

// A parameter was refused: a fault in the rest of the walk comes before it. (The number is made of the
// refusal ahead of the walk: behind it, the compiler would lay the zeros of a refused message ready in each
// step of the walk, which took more than twice as many instructions.)
fn refused_at(s: &[u8], next: usize, r: Refusal) -> Reading
    ensures { result ≡ unreadable ((walk s.now next).code or_else number r) }
{
    let told = u32::from(r);
    let code = match codec_wire::walk_code(s, next) {
        Err(fault) => u32::from(fault),
        Ok(()) => told,
    };
    Reading {
        code,
        ..Reading::default()
    }
}

// The checks 6 to 8 in one walk, of a message whose row is known. (What `Seen::pass` does stands here in
// full: called, its answer is put together and asked once more, which takes ten instructions for each
// parameter.)
fn read_pars(s: &[u8], info: RowInfo) -> Reading
    requires { (8 ≤ length s.now) × ((row_in table (get_or s.now 2 0) (get_or s.now 3 0) < 17) × (info ≡ info_of (row_in table (get_or s.now 2 0) (get_or s.now 3 0)))) }
    ensures { result ≡ outcome (last_checks s.now) s.now }
{
    let mut seen = Seen::none();
    let mut at: usize = HEADER;
    loop {
        let w = codec_wire::step_at(s, at);
        let Step::Param { tag, len, next } = w else {
            return finish(codec_wire::step_code(w), info.musts, s[2], s[3], &seen);
        };
        let start = at + 4;
        let stop = at + usize::from(len);
        let value = &s[start..stop];
        let k = codec_parameter::slot_of(tag);
        let met = seen.met[k];
        if let Err(r) = codec_parameter::par_at(info.uses, seen.first, met, k, tag, value) {
            return refused_at(s, next, r);
        }
        seen.keep(k, value);
        at = next;
    }
}

// The checks 3 to 5, of whether the class is listed, the row, the length field and the number of bytes: the
// row of a message that passes.
#[tactic(auto, unfolding(crate::specs::Inner::Seen::row_code))]
fn row_code(listed: bool, row: Option<usize>, n: u32, len: usize) -> Result<usize, Refusal>
    ensures number { code result ≡ row_code listed row n len }
    ensures row { IfOk result (λ i. row ≡ Some i) }
{
    if !listed {
        return Err(Refusal::UnsupportedClass);
    }
    let Some(i) = row else {
        return Err(Refusal::UnsupportedType);
    };
    if n as usize != len {
        return Err(Refusal::ProtocolError);
    }
    if len % 4 != 0 {
        return Err(Refusal::ProtocolError);
    }
    Ok(i)
}

// The checks 3 to 8. (One refusal for the checks 3 to 5: so the message's fields stay in registers.)
fn read_kind(s: &[u8]) -> Reading
    requires { 8 ≤ length s.now }
    ensures { result ≡ kind_outcome s.now }
{
    let c = s[2];
    let t = s[3];
    let row = row_code(
        codec_parameter::class_ok(c),
        codec_parameter::row_of(c, t),
        codec_wire::get32(s, 4),
        s.len(),
    );
    match row {
        Ok(i) => read_pars(s, codec_parameter::row_info(i)),
        Err(r) => refused(r),
    }
}

// The checks in their order.
#[tactic(auto, unfolding(crate::specs::Inner::Seen::checks_outcome))]
fn read_checks(s: &[u8]) -> Reading
    ensures { result ≡ checks_outcome s.now }
{
    if s.len() < HEADER {
        return refused(Refusal::ProtocolError);
    }
    if MOST < s.len() {
        return refused(Refusal::ProtocolError);
    }
    if s[0] != 1 {
        return refused(Refusal::InvalidVersion);
    }
    read_kind(s)
}

// The types of which a message may have no parameter: all of the classes 3 and 4.
// Kept: no branch, here and in is_bare: with `matches!` and `&&` an Up took 8.2 ns and not 6.8.
#[tactic(auto, unfolding(crate::specs::Inner::Seen::needs_none))]
fn needs_none(c: u8, t: u8) -> bool
    ensures { result ≡ needs_none c t }
{
    ((c == 3) & ((1 <= t) & (t <= 6))) | ((c == 4) & ((1 <= t) & (t <= 4)))
}

// A message of its header alone that is accepted.
#[tactic(auto, unfolding(crate::specs::Inner::Seen::is_bare))]
fn is_bare(s: &[u8]) -> bool
    ensures { result ≡ is_bare s.now }
{
    if s.len() == HEADER {
        return ((s[0] == 1) & (codec_wire::get32(s, 4) == 8)) & needs_none(s[2], s[3]);
    }
    false
}

// What it means.
#[tactic(auto, unfolding(crate::specs::Meaning::meaning, crate::specs::Verdict::has, crate::specs::Verdict::number))]
fn bare(c: u8, t: u8) -> Reading
    ensures { result ≡ meaning c t [] }
{
    Reading {
        class: u32::from(c),
        msgtype: u32::from(t),
        ..Reading::default()
    }
}

// Reads a message: its verdict, and of an accepted one what it means. Up, Down, Active and Beat often have no
// parameter; asked for ahead of all checks, these need few registers and no table.
pub fn read(s: &[u8]) -> Reading
    ensures { result ≡ reading_of s.now }
{
    if is_bare(s) {
        return bare(s[2], s[3]);
    }
    read_checks(s)
}

// Where the protocol data of a message lies: its first byte and the number of its bytes; both 0 where there
// is none.
// Kept: the C interface (include/m2ua.h) has these columns.
#[repr(C)]
#[derive(Drop)]
pub struct DataAt {
    pub start: usize,
    pub length: usize,
}

// A parameter of a message: its tag, and where its value lies.
#[derive(Clone, Copy)]
pub struct Found {
    pub tag: u16,
    pub start: usize,
    pub length: usize,
}

// The first parameter that has one of two tags, from a position on.
pub fn find(s: &[u8], from: usize, t: u16, u: u16) -> Option<Found>
    ensures { result ≡ found_in t u from (walk s.now from).pars }
{
    let mut at = from;
    loop {
        let w = codec_wire::reading_at(s, at);
        let Step::Param { tag, len, next } = w else {
            return None;
        };
        if (tag == t) | (tag == u) {
            let start = at + 4;
            let stop = at + usize::from(len);
            return Some(Found {
                tag,
                start,
                length: stop - start,
            });
        }
        at = next;
    }
}

// The protocol data of a message, the SS7 signalling unit: the value of the first 0x300 or 0x301 (Rule 1.7),
// and which of the two it is.
pub fn data_unit(s: &[u8]) -> Option<Found>
    ensures { result ≡ found_in 0x300 0x301 8 (walk s.now 8).pars }
{
    find(s, HEADER, 0x300, 0x301)
}

// Where the protocol data of a message lies.
pub fn data_at(s: &[u8]) -> DataAt
    ensures { result ≡ data_at s.now }
{
    match data_unit(s) {
        Some(u) => DataAt {
            start: u.start,
            length: u.length,
        },
        None => DataAt {
            start: 0,
            length: 0,
        },
    }
}

// The protocol data as a part of the message; nothing where there is none.
pub fn protocol_data(s: &[u8]) -> &[u8]
    ensures { result.now ≡ data_of s.now }
{
    let d = data_at(s);
    &s[d.start..d.start + d.length]
}
