// Text out, and the words of a line in: decimal numbers and lower-case hex.
#![tactic(auto)]

ghost use Rattle.std.specs.Prelude.{◌≡◌, ◌==◌, position, IfSome, ◌/◌, ◌≤◌, ◌<◌, length, take, drop};
ghost use Rattle.tool_text.specs.Word.{word_in, rest_in, same};
ghost use Rattle.tool_text.specs.Parse.{unhex, octets, size_of};
ghost use Rattle.tool_text.specs.Inner.Parse.{nibble_in, octet_in, add_digit, number_of};

mod buffer;

pub use buffer::Text;

// A number with one more decimal digit; none where the character is no digit or the number doesn't fit 32
// bits.
fn add_digit(n: u32, b: u8) -> Option<u32>
    ensures { result ≡ add_digit n b }
{
    let digit = match b {
        b'0'..=b'9' => b - b'0',
        _ => return None,
    };
    n.checked_mul(10)?.checked_add(u32::from(digit))
}

// A word as a decimal number of 32 bits.
pub fn number_of(w: &[u8]) -> Option<u32>
    ensures { result ≡ number_of w.now }
{
    if w.is_empty() {
        return None;
    }
    let mut n = 0;
    for b in w {
        n = add_digit(n, *b)?;
    }
    Some(n)
}

// The value of a lower-case hex digit.
#[tactic(auto, unfolding(crate::specs::Parse::nibble_of))]
fn nibble(b: u8) -> Option<u8>
    ensures value { result ≡ nibble_in b }
    ensures small { IfSome result (λ x. x < 16) }
{
    match b {
        b'0'..=b'9' => Some(b - b'0'),
        b'a'..=b'f' => Some(b - b'a' + 10),
        _ => None,
    }
}

// The byte of two hex digits.
#[tactic(auto, unfolding(crate::specs::Parse::octet_of))]
fn octet(h: u8, l: u8) -> Option<u8>
    ensures { result ≡ octet_in h l }
{
    Some(nibble(h)? * 16 + nibble(l)?)
}

// A word of hex digits, or `-` for no bytes, put into the first bytes of a buffer: how many.
#[tactic(auto, using(crate::proofs::Parses::dash_same, crate::proofs::Parses::unhex_dash), unfolding(crate::specs::Parse::size_of))]
pub fn bytes_of(w: &[u8], bytes: &mut [u8; 32768]) -> Option<usize>
    requires { length w.now ≤ 65536 }
    ensures size { result ≡ size_of w.now }
    ensures bytes { IfSome result (λ n. take n bytes.new ≡ unhex w.now) }
    ensures rest { IfSome result (λ n. drop n bytes.new ≡ drop n bytes.old) }
{
    if is(w, b"-") {
        return Some(0);
    }
    if w.is_empty() {
        return None;
    }
    octets_of(w, bytes)
}

// Hex digits, put into the first bytes of a buffer with room for them: how many bytes.
pub fn octets_of(w: &[u8], bytes: &mut [u8]) -> Option<usize>
    requires { length w.now / 2 ≤ length bytes.old }
    ensures size { result ≡ octets w.now }
    ensures bytes { IfSome result (λ n. take n bytes.new ≡ unhex w.now) }
    ensures rest { IfSome result (λ n. drop n bytes.new ≡ drop n bytes.old) }
    ensures in_bounds { IfSome result (λ n. n ≤ length bytes.new) }
{
    let n = w.len() / 2;
    if w.len() % 2 != 0 {
        return None;
    }
    for i in 0..n {
        bytes[i] = octet(w[2 * i], w[2 * i + 1])?;
    }
    Some(n)
}

// ---- Words, which one blank separates.

// Where the first blank of a line stands.
fn first_blank(line: &[u8]) -> Option<usize>
    ensures { result ≡ position (λ x. x == 32) line.now }
{
    line.iter().position(|b| *b == b' ')
}

// The first word of a line.
#[tactic(auto, using(crate::proofs::Words::word_some, crate::proofs::Words::word_none))]
pub fn word_of(line: &[u8]) -> &[u8]
    ensures { result.now ≡ word_in line.now }
{
    match first_blank(line) {
        Some(at) => &line[..at],
        None => line,
    }
}

// What follows the first blank of a line; nothing where there is none.
#[tactic(auto, using(crate::proofs::Words::rest_some, crate::proofs::Words::rest_none))]
pub fn rest_of(line: &[u8]) -> &[u8]
    ensures result_value { result.now ≡ rest_in line.now }
    ensures result_in_bounds { length result.now ≤ length line.now }
{
    match first_blank(line) {
        Some(at) => &line[at + 1..],
        None => &line[..0],
    }
}

// Two words are the same.
#[tactic(auto, using(crate::proofs::Words::same_is))]
pub fn is(word: &[u8], name: &[u8]) -> bool
    ensures { result ≡ same word.now name.now }
{
    word == name
}

// The first bytes of a buffer; all of it where it has no more.
pub fn first<T>(s: &[T], n: usize) -> &[T]
    ensures { result.now ≡ take n s.now }
{
    &s[..n.min(s.len())]
}
