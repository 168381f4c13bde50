// A message as a caller lends it.

ghost use Rattle.codec_write.specs.Inner.Write.{Sized};

// A class, a type, and a list: the tags, the lengths of the values, and the values one after the other.
#[derive(Clone, Copy)]
pub struct Message<'a> {
    pub class: u8,
    pub msgtype: u8,
    pub tags: &'a [u16],
    pub lens: &'a [u32],
    pub values: &'a [u8],
}

// One whose list is whole (Rule 3.2), and whose length in bytes the reader takes.
#[derive(Clone, Copy)]
pub struct Whole<'a> {
    pub message: Message<'a>,
    pub length: usize,
    ghost sized: { Sized message.tags.now message.lens.now message.values.now length },
}
