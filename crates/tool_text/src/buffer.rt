// Text that is put together byte by byte, in a buffer with room for 65,536.

ghost use Rattle.std.specs.Prelude.{◌≡◌, ◌+◌, ◌*◌, ◌-◌, ◌%◌, ◌≤◌, ◌<◌, length, take, [], ◌∷◌, ◌++◌};
ghost use Rattle.tool_text.specs.Digits.{glyph, digits, places, decimal, hex};

use crate::first;
use std::marker::Model;

// Clauses see the text itself. What stands behind it in the buffer is nobody's.
// Kept: no heap, so a buffer with its length beside it, in this struct alone.
#[derive(Drop)]
pub struct Text {
    bytes: [u8; 65536],
    len: usize,
}

impl Model for Text {
    ghost use Rattle.std.specs.Prelude.{ℕ, ◌≤◌, List, take};

    ghost Value = { List ℕ };

    ghost view = { λ t. take t.len t.bytes };

    ghost invariant = { λ t. t.len ≤ 65536 };
}

impl Text {
    pub fn new() -> Self
        ensures { result ≡ [] }
    {
        Text {
            bytes: [0; 65536],
            len: 0,
        }
    }

    pub fn clear(&mut self)
        ensures { self.new ≡ [] }
    {
        self.len = 0;
    }

    pub fn len(&self) -> usize
        ensures value { result ≡ length self.now }
        ensures upper_bound { result ≤ 65536 }
    {
        self.as_bytes().len()
    }

    pub fn as_bytes(&self) -> &[u8]
        ensures value { result.now ≡ self.now }
        ensures upper_bound { length result.now ≤ 65536 }
    {
        &self.bytes[..self.len]
    }

    pub fn push(&mut self, b: u8)
        requires { length self.old < 65536 }
        ensures { self.new ≡ self.old ++ b ∷ [] }
    {
        self.bytes[self.len] = b;
        self.len += 1;
    }

    pub fn push_bytes(&mut self, s: &[u8])
        requires { length self.old + length s.now ≤ 65536 }
        ensures { self.new ≡ self.old ++ s.now }
    {
        let end = self.len + s.len();
        self.bytes[self.len..end].copy_from_slice(s);
        self.len = end;
    }

    // As much of a part as there is room for.
    pub fn push_fitting(&mut self, part: &[u8])
        ensures text { self.new ≡ self.old ++ take (65536 - length self.old) part.now }
        ensures upper_bound { length self.new ≤ 65536 }
    {
        let room = 65536 - self.len;
        self.push_bytes(first(part, room));
    }

    // A comma, where something stands behind a place: what follows is not the first of its list.
    pub fn push_comma(&mut self, start: usize)
        requires { length self.old < 65536 }
        ensures further { start < length self.old → self.new ≡ self.old ++ 44 ∷ [] }
        ensures first { length self.old ≤ start → self.new ≡ self.old }
        ensures lower_bound { (length self.old ≤ length self.new) × (length self.new ≤ length self.old + 1) }
    {
        if self.len > start {
            self.push(b',');
        }
    }

    // A number in decimal: at most ten characters.
    pub fn push_number(&mut self, n: u32)
        requires { length self.old + 10 ≤ 65536 }
        ensures text { self.new ≡ self.old ++ decimal n }
        ensures lower_bound { (length self.old < length self.new) × (length self.new ≤ length self.old + 10) }
    {
        let end = self.len + width(n);
        put_digits(&mut self.bytes[self.len..end], n);
        self.len = end;
    }

    // A number, and a character after it.
    pub fn push_field(&mut self, n: u32, end: u8)
        requires { length self.old + 11 ≤ 65536 }
        ensures text { self.new ≡ self.old ++ (decimal n ++ end ∷ []) }
        ensures lower_bound { (length self.old < length self.new) × (length self.new ≤ length self.old + 11) }
    {
        self.push_number(n);
        self.push(end);
    }

    // Bytes in lower-case hex, two characters for each.
    pub fn push_hex(&mut self, s: &[u8])
        requires { length self.old + 2 * length s.now ≤ 65536 }
        ensures text { self.new ≡ self.old ++ hex s.now }
        ensures value { length self.new ≡ length self.old + 2 * length s.now }
    {
        let end = self.len + 2 * s.len();
        put_pairs(&mut self.bytes[self.len..end], s);
        self.len = end;
    }
}

// The character of a digit below 16.
#[tactic(auto, unfolding(crate::specs::Digits::glyph))]
fn digit(x: u8) -> u8
    requires { x < 16 }
    ensures { result ≡ glyph x }
{
    if x < 10 { b'0' + x } else { b'a' + (x - 10) }
}

// How many decimal digits a number has.
#[tactic(auto, unfolding(crate::specs::Digits::places))]
fn width(n: u32) -> usize
    ensures { (result ≡ places n) × (0 < result) × (result ≤ 10) }
{
    match n {
        ..10 => 1,
        ..100 => 2,
        ..1000 => 3,
        ..10000 => 4,
        ..100000 => 5,
        ..1000000 => 6,
        ..10000000 => 7,
        ..100000000 => 8,
        ..1000000000 => 9,
        _ => 10,
    }
}

// Bytes in lower-case hex, over a part of twice as many. (With a push for each character the length is stored
// and loaded again each time: half as many instructions more.)
fn put_pairs(out: &mut [u8], s: &[u8])
    requires { length out.old ≡ 2 * length s.now }
    ensures { out.new ≡ hex s.now }
{
    for i in 0..s.len() {
        out[2 * i] = digit(s[i] / 16);
        out[2 * i + 1] = digit(s[i] % 16);
    }
}

// The last decimal digits of a number, as many as there are places.
fn put_digits(places: &mut [u8], n: u32)
    ensures { places.new ≡ digits (length places.old) n }
{
    let mut rest = n;
    for i in (0..places.len()).rev() {
        places[i] = b'0' + (rest % 10) as u8;
        rest /= 10;
    }
}
