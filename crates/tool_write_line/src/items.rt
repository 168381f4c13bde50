// The items of a list as they are read.

ghost use Rattle.std.specs.Prelude.{◌≡◌, ◌≤◌, [], IfSome};

use crate::tag_of;
use std::marker::Model;
use tool_text::{first, number_of, octets_of};

// Tags, the lengths of the values, and the values one after the other. Of a list of more than 512 items the
// first 512 are kept, and the values of all: it has more than 2,048 bytes either way.
// Kept: no heap, and codec_write::write takes these columns.
#[derive(Drop)]
pub struct Items<'a> {
    tags: [u16; 512],
    lens: [u32; 512],
    count: usize,
    values: &'a mut [u8; 32768],
    filled: usize,
}

// Clauses see the tags.
impl<'a> Model for Items<'a> {
    ghost use Rattle.std.specs.Prelude.{ℕ, ◌≤◌, List, take};

    ghost Value = { List ℕ };

    ghost view = { λ l. take l.count l.tags };

    ghost invariant = { λ l. (l.count ≤ 512) × (l.filled ≤ 32768) };
}

impl<'a> Items<'a> {
    pub fn new(values: &'a mut [u8; 32768]) -> Self
        ensures { result ≡ [] }
    {
        Items {
            tags: [0; 512],
            lens: [0; 512],
            count: 0,
            values,
            filled: 0,
        }
    }

    pub fn tags(&self) -> &[u16]
        ensures { result.now ≡ self.now }
    {
        &self.tags[..self.count]
    }

    pub fn lens(&self) -> &[u32] {
        &self.lens[..self.count]
    }

    pub fn values(&self) -> &[u8] {
        first(self.values, self.filled)
    }

    // `TAG:HEX`
    pub fn take(&mut self, item: &[u8]) -> Option<()> {
        let colon = item.iter().position(|b| *b == b':')?;
        let tag = number_of(&item[..colon])?;
        let n = self.take_value(&item[colon + 1..])?;
        if self.count < 512 {
            self.tags[self.count] = tag_of(tag);
            self.lens[self.count] = n as u32;
            self.count += 1;
        }
        Some(())
    }

    // Hex digits as bytes behind the values so far, where there is room for them: how many.
    fn take_value(&mut self, w: &[u8]) -> Option<usize>
        ensures { IfSome result (λ n. n ≤ 32768) }
    {
        let values = &mut *self.values;
        let room = &mut values[self.filled..];
        if w.len() / 2 > room.len() {
            return None;
        }
        let n = octets_of(w, room)?;
        self.filled += n;
        Some(n)
    }
}
