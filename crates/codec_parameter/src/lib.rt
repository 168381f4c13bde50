// One parameter of a message: how its tag may stand in a message, and its length and value.
#![tactic(auto)]

ghost use Rattle.std.specs.Prelude.{◌≡◌, ◌+◌, ◌*◌, ◌/◌, ◌%◌, ◌^◌, ◌≤◌, ◌<◌, length, IfSome};
ghost use Rattle.codec_wire.specs.Number.{be};
ghost use Rattle.codec_wire.specs.Refusal.{number, code};
ghost use Rattle.codec_parameter.specs.Table.{table, has_class, row_in};
ghost use Rattle.codec_parameter.specs.Value.{bytes_of, number_of, limits_of, plain_code, word_code, value_code, id_code, range_code, body_code};
ghost use Rattle.codec_parameter.specs.Inner.Slot.{slot, info, info_of, row_bits, packed_use, asked, all_asked, row_or_none, listed};
ghost use Rattle.codec_parameter.specs.Check.{text_code, once_code, allowed_code, par_code};

use codec_wire::Refusal;

// Tags that the checks ask for.
const INTERFACE_ID: u16 = 0x1;

const TEXT_ID: u16 = 0x3;

const ID_RANGE: u16 = 0x8;

const TRAFFIC_MODE: u16 = 0xb;

// The slot of every tag that no message has.
// Kept: reader's and writer's tables have a place for it, so that a tag is looked up without a branch.
const NO_SLOT: usize = 31;

// How a tag stands in a message: not at all; once at most; exactly once; as often as one likes (Rule 2.11).
// The two bits of a packed row are its place in this list.
#[derive(Clone, Copy, PartialEq, Eq, Debug)]
pub enum Usage {
    Forbidden,
    Optional,
    Mandatory,
    Repeated,
}

// How long a value may be, and, of one that is a number, what it may be.
// Kept: the definition limits_of (specs/Value.antt), which readers believe, has these fields.
#[derive(Drop)]
pub struct Limits {
    pub least: usize,
    pub most: usize,
    pub word: bool,
    pub low: u32,
    pub high: u32,
}

// A row of the table, packed: two bits for each slot say how its tag may stand; three slots of five bits each
// are the mandatory ones.
#[derive(Drop)]
pub struct RowInfo {
    pub uses: u64,
    pub musts: u32,
}

// The class is listed.
#[tactic(auto, unfolding(crate::specs::Table::has_class, crate::specs::Table::table))]
pub fn class_ok(c: u8) -> bool
    ensures { result ≡ has_class table c }
{
    matches!(c, 0 | 3 | 4 | 6)
}

// The row of a type in a class: four bits for each type are its place among the class's rows, 15 for none;
// base is the class's first row.
fn row_in(rows: u64, base: usize, t: u8) -> Option<usize>
    requires { base < 17 }
    ensures row { row_or_none result ≡ row_bits rows base t }
    ensures place { IfSome result (λ i. ((t ≤ 15) × (rows / 2 ^ (4 * t) % 16 < 15)) × (i ≡ base + rows / 2 ^ (4 * t) % 16)) }
{
    if 15 < t {
        return None;
    }
    let place = ((rows >> (4 * u64::from(t))) % 16) as usize;
    if place == 15 {
        return None;
    }
    Some(base + place)
}

// The row of a class and type.
pub fn row_of(c: u8, t: u8) -> Option<usize>
    ensures { result ≡ listed (row_in table c t) }
{
    match c {
        0 => row_in(0xffffffffffffff10, 0, t),
        3 => row_in(0xfffffffff211210f, 2, t),
        4 => row_in(0xfffffffffff1010f, 5, t),
        6 => row_in(0x987654322111110f, 7, t),
        _ => None,
    }
}

fn packed_row(uses: u64, musts: u32) -> RowInfo
    ensures { result ≡ info uses musts }
{
    RowInfo { uses, musts }
}

// A row, packed.
#[tactic(auto, unfolding(crate::specs::Inner::Slot::info_of))]
pub fn row_info(row: usize) -> RowInfo
    ensures { result ≡ info_of row }
{
    match row {
        0 => packed_row(0x203400c, 12),
        1 => packed_row(0x40803010c, 13),
        2 => packed_row(0x400000100, 0),
        3 => packed_row(0x100, 0),
        4 => packed_row(0x40000, 0),
        5 => packed_row(0x43010c, 0),
        6 => packed_row(0x3010c, 0),
        7 => packed_row(0xa4000000008, 641),
        8 => packed_row(0x8, 1),
        9 => packed_row(0x200000000008, 705),
        10 => packed_row(0x800000000008, 737),
        11 => packed_row(0x60000000000008, 833),
        12 => packed_row(0x260000000000008, 29505),
        13 => packed_row(0xa0000000008, 641),
        14 => packed_row(0x50000000008, 1),
        15 => packed_row(0x6000000000008, 769),
        _ => packed_row(0x8000000008, 609),
    }
}

// The slot of a tag.
#[tactic(auto, unfolding(crate::specs::Inner::Slot::slot))]
pub fn slot_of(t: u16) -> usize
    ensures { (result ≡ slot t) × (result < 32) }
{
    if t < 20 {
        return usize::from(t);
    }
    if t < 0x300 {
        return NO_SLOT;
    }
    if t > 0x308 {
        return NO_SLOT;
    }
    if t == 0x301 {
        return 20;
    }
    usize::from(t) - 748
}

// How the tag of a slot may stand.
#[tactic(auto, unfolding(crate::specs::Inner::Slot::usage_of))]
fn use_at(uses: u64, k: usize) -> Usage
    requires { k < 32 }
    ensures { result ≡ packed_use uses k }
{
    match (uses >> (2 * k)) % 4 {
        0 => Usage::Forbidden,
        2 => Usage::Mandatory,
        3 => Usage::Repeated,
        _ => Usage::Optional,
    }
}

fn bytes_of(least: usize, most: usize) -> Limits
    requires { (4 ≤ least) × (4 ≤ most) }
    ensures { result ≡ bytes_of least most }
{
    Limits {
        least: least - 4,
        most: most - 4,
        word: false,
        low: 0,
        high: 0,
    }
}

fn number_of(low: u32, high: u32) -> Limits
    ensures { result ≡ number_of low high }
{
    Limits {
        least: 4,
        most: 4,
        word: true,
        low,
        high,
    }
}

// The limits of a tag's value.
#[tactic(auto, unfolding(crate::specs::Value::limits_of))]
fn limits_of(t: u16) -> Limits
    ensures { result ≡ limits_of t }
{
    match t {
        0x4 => bytes_of(4, 259),
        0x7 => bytes_of(4, 65535),
        0x9 => bytes_of(4, 65535),
        0x300 => bytes_of(5, 277),
        0x301 => bytes_of(5, 277),
        TRAFFIC_MODE => number_of(1, 3),
        0x302 => number_of(0, 10),
        0x303 => number_of(1, 4),
        0x304 => number_of(0, 3),
        0x305 => number_of(0, 3),
        0x306 => number_of(1, 2),
        0x307 => number_of(0, 4095),
        0x308 => number_of(0, 1),
        _ => bytes_of(8, 8),
    }
}

// The refusal of a value that is out of its limits.
fn value_code(t: u16) -> Refusal
    ensures { number result ≡ value_code t }
{
    if t == TRAFFIC_MODE {
        Refusal::UnsupportedMode
    } else {
        Refusal::InvalidValue
    }
}

// A number in its limits.
#[tactic(auto, unfolding(crate::specs::Value::word_code))]
fn word_code(m: Limits, t: u16, n: u32) -> Result<(), Refusal>
    ensures { code result ≡ word_code m t n }
{
    if n < m.low {
        return Err(value_code(t));
    }
    if m.high < n {
        return Err(value_code(t));
    }
    Ok(())
}

// A value in its limits.
#[tactic(auto, unfolding(crate::specs::Value::plain_code))]
fn plain_code(m: Limits, t: u16, v: &[u8]) -> Result<(), Refusal>
    ensures { code result ≡ plain_code m t v.now }
{
    if v.len() < m.least {
        return Err(Refusal::FieldError);
    }
    if m.most < v.len() {
        return Err(Refusal::FieldError);
    }
    if !m.word {
        return Ok(());
    }
    if v.len() < 4 {
        return Err(Refusal::FieldError);
    }
    word_code(m, t, codec_wire::get32(v, 0))
}

// Interface identifiers: one in a link message, else one or more (Rules 2.11 and 2.12).
#[tactic(auto, unfolding(crate::specs::Value::id_code))]
fn id_code(u: Usage, v: &[u8]) -> Result<(), Refusal>
    ensures { code result ≡ id_code u v.now }
{
    if u == Usage::Repeated {
        if v.len() < 4 {
            return Err(Refusal::FieldError);
        }
        if v.len() % 4 == 0 {
            Ok(())
        } else {
            Err(Refusal::FieldError)
        }
    } else {
        if v.len() == 4 {
            Ok(())
        } else {
            Err(Refusal::FieldError)
        }
    }
}

// Ranges of interface identifiers: pairs of a start and a stop.
#[tactic(auto, unfolding(crate::specs::Value::range_code))]
fn range_code(v: &[u8]) -> Result<(), Refusal>
    ensures { code result ≡ range_code v.now }
{
    if v.len() < 8 {
        return Err(Refusal::FieldError);
    }
    if v.len() % 8 != 0 {
        return Err(Refusal::FieldError);
    }
    for k in 0..v.len() / 8 {
        let start = codec_wire::get32(v, k * 8);
        let stop = codec_wire::get32(v, k * 8 + 4);
        if stop < start {
            return Err(Refusal::InvalidValue);
        }
    }
    Ok(())
}

// The length and value of a tag that may stand as u says.
#[tactic(auto, unfolding(crate::specs::Value::body_code))]
fn body_code(u: Usage, t: u16, v: &[u8]) -> Result<(), Refusal>
    ensures { code result ≡ body_code u t v.now }
{
    if t == INTERFACE_ID {
        return id_code(u, v);
    }
    if t == ID_RANGE {
        return range_code(v);
    }
    plain_code(limits_of(t), t, v)
}

// The refusal of a text identifier (Rule 2.13). u is how identifiers stand in the message.
#[tactic(auto, unfolding(crate::specs::Check::text_code))]
fn text_code(u: Usage, first: bool) -> Refusal
    ensures { number result ≡ text_code u first }
{
    match u {
        Usage::Repeated => Refusal::UnsupportedIdentifier,
        Usage::Mandatory if first => Refusal::UnsupportedIdentifier,
        _ => Refusal::UnexpectedParameter,
    }
}

// A tag that comes once: not seen before, and an interface identifier as the first parameter alone (Rules
// 2.12 and 2.14).
fn once_code(first: bool, again: bool, t: u16) -> Result<(), Refusal>
    ensures { code result ≡ once_code first again t }
{
    if again {
        return Err(Refusal::UnexpectedParameter);
    }
    if t == INTERFACE_ID {
        if first {
            return Ok(());
        }
        return Err(Refusal::UnexpectedParameter);
    }
    Ok(())
}

// May a parameter stand there (Rules 2.12 to 2.14)? u1 is how identifiers stand in the message, u how this
// tag does. (By `==`, a repeated tag first: by `match` the compiler asks for it last, and the parameters of a
// long list are mostly such.)
#[tactic(auto, unfolding(crate::specs::Check::allowed_code))]
fn allowed_code(u1: Usage, u: Usage, first: bool, again: bool, t: u16) -> Result<(), Refusal>
    ensures { code result ≡ allowed_code u1 u first again t }
{
    if t == TEXT_ID {
        return Err(text_code(u1, first));
    }
    if u == Usage::Repeated {
        return Ok(());
    }
    if u == Usage::Forbidden {
        return Err(Refusal::UnexpectedParameter);
    }
    once_code(first, again, t)
}

// One parameter of a message of a row whose uses are packed: the first or not, its tag seen before or not,
// its slot, tag and value. It may stand there or not, and then its length and value count.
pub fn par_at(
    uses: u64,
    first: bool,
    again: bool,
    k: usize,
    t: u16,
    v: &[u8],
) -> Result<(), Refusal>
    requires { k < 32 }
    ensures { code result ≡ par_code (packed_use uses 1) (packed_use uses k) first again t v.now }
{
    let u = use_at(uses, k);
    allowed_code(use_at(uses, 1), u, first, again, t)?;
    body_code(u, t, v)
}

// A slot is met; 0 stands for no slot.
fn met_at(met: &[bool; 32], k: usize) -> bool
    requires { k < 32 }
    ensures { result ≡ asked met.now k }
{
    if k == 0 {
        return true;
    }
    met[k]
}

// Each of three packed slots is met.
#[tactic(auto, unfolding(crate::specs::Inner::Slot::all_asked))]
pub fn musts_met(musts: u32, met: &[bool; 32]) -> bool
    ensures { result ≡ all_asked musts met.now }
{
    let m = musts as usize;
    met_at(met, m % 32) & met_at(met, m / 32 % 32) & met_at(met, m / 1024 % 32)
}
