// Writes M2UA messages from a lent list of tags and values.
#![tactic(auto, unfolding(crate::specs::Inner::Write::kind_code))]

ghost use Rattle.std.specs.Prelude.{◌≡◌, ◌≤◌, ◌<◌, length, IfOk};
ghost use Rattle.codec_wire.specs.Refusal.{number, code};
ghost use Rattle.codec_parameter.specs.Table.{table, has_class, row_in};
ghost use Rattle.codec_put.specs.Bytes.{overlay, pars_bytes};
ghost use Rattle.codec_write.specs.Encode.{encode};
ghost use Rattle.codec_write.specs.Write.{Writes};
ghost use Rattle.codec_write.specs.declared.WriteRefusal.TheVariants.{Reader};
ghost use Rattle.codec_write.specs.Inner.Write.{size_code, kind_code, row_code};
ghost use Rattle.codec_write.specs.Inner.Message.{pars_of, write_number, written_of};

use codec_read::Seen;
use codec_wire::{HEADER, MOST, Refusal};

mod message;

use message::{Message, Whole};

// The refusal of a buffer that is short.
const SHORT_BUFFER: u32 = 103;

// What a write did. A refused list has its number in `code`, and length 0.
// Kept: the C interface (include/m2ua.h) has these two numbers, where the code within has a Result.
#[repr(C)]
#[derive(Drop)]
pub struct Written {
    // 0, or the number of the refusal
    pub code: u32,
    // the bytes written
    pub length: usize,
}

// Why nothing is written: what the reader would refuse, or a buffer that is short.
#[derive(Clone, Copy)]
enum WriteRefusal {
    Reader(Refusal),
    ShortBuffer,
}

impl From<Refusal> for WriteRefusal {
    ghost from_gives = { λ r e. e ≡ Reader r };

    fn from(r: Refusal) -> WriteRefusal {
        WriteRefusal::Reader(r)
    }
}

impl From<WriteRefusal> for u32 {
    fn from(r: WriteRefusal) -> u32
        ensures { result ≡ write_number r }
    {
        match r {
            WriteRefusal::Reader(r) => u32::from(r),
            WriteRefusal::ShortBuffer => SHORT_BUFFER,
        }
    }
}

impl From<Result<usize, WriteRefusal>> for Written {
    fn from(r: Result<usize, WriteRefusal>) -> Written
        ensures { result ≡ written_of r }
    {
        match r {
            Ok(length) => Written { code: 0, length },
            Err(r) => Written {
                code: u32::from(r),
                length: 0,
            },
        }
    }
}

impl<'a> Message<'a> {
    // It with its length, where the list is whole and the length at most 2,048 bytes.
    #[tactic(auto, using(crate::proofs::Lists::size_turns))]
    fn whole(self) -> Result<Whole<'a>, Refusal>
        ensures size { code result ≡ size_code self.entry.tags.now self.entry.lens.now self.entry.values.now }
        ensures same { IfOk result (λ w. w.message ≡ self.entry) }
    {
        if self.lens.len() != self.tags.len() {
            return Err(Refusal::ProtocolError);
        }
        let mut length = HEADER;
        let mut sum: usize = 0;
        for len in self.lens {
            let n = *len as usize;
            length += (4 + n + 3) / 4 * 4;
            if MOST < length {
                return Err(Refusal::ProtocolError);
            }
            sum += n;
        }
        if sum != self.values.len() {
            return Err(Refusal::ProtocolError);
        }
        Ok(Whole {
            message: self,
            length,
        })
    }

    // The message, written at the start of a buffer: its length.
    fn write_into(self, out: &mut [u8]) -> Result<usize, WriteRefusal>
        ensures { Writes self.entry.class self.entry.msgtype self.entry.tags.now self.entry.lens.now self.entry.values.now out.old (written_of result) out.new }
    {
        let whole = self.whole()?;
        whole.kind_check()?;
        if out.len() < whole.length {
            return Err(WriteRefusal::ShortBuffer);
        }
        whole.put(out);
        Ok(whole.length)
    }
}

impl<'a> Whole<'a> {
    // The checks 7 and 8, of its row.
    fn row_check(self, row: usize) -> Result<(), Refusal>
        requires { (row < 17) × (row ≡ row_in table self.message.class self.message.msgtype) }
        ensures { code result ≡ row_code row self.entry.message.class self.entry.message.msgtype (pars_of self.entry.message) }
    {
        let info = codec_parameter::row_info(row);
        let mut seen = Seen::none();
        let mut rest = self.message.values;
        for (tag, len) in self.message.tags.iter().zip(self.message.lens) {
            let (value, behind) = rest.split_at(*len as usize);
            seen.pass(info.uses, *tag, value)?;
            rest = behind;
        }
        seen.end_code(info.musts, self.message.class, self.message.msgtype)
    }

    // What the reader would say of its class, type and parameters.
    fn kind_check(self) -> Result<(), Refusal>
        ensures { code result ≡ kind_code self.entry.message.class self.entry.message.msgtype (pars_of self.entry.message) }
    {
        if !codec_parameter::class_ok(self.message.class) {
            return Err(Refusal::UnsupportedClass);
        }
        let Some(row) = codec_parameter::row_of(self.message.class, self.message.msgtype) else {
            return Err(Refusal::UnsupportedType);
        };
        self.row_check(row)
    }

    // Its parameters, written behind the header.
    fn put_pars(self, out: &mut [u8])
        requires { self.length ≤ length out.old }
        ensures { out.new ≡ overlay out.old 8 (pars_bytes (pars_of self.entry.message)) }
    {
        let mut at = HEADER;
        let mut rest = self.message.values;
        for (tag, len) in self.message.tags.iter().zip(self.message.lens) {
            let (value, behind) = rest.split_at(*len as usize);
            at = codec_put::put_param(out, at, *tag, value);
            rest = behind;
        }
    }

    // The message, written at the start of a buffer.
    fn put(self, out: &mut [u8])
        requires { self.length ≤ length out.old }
        ensures { out.new ≡ overlay out.old 0 (encode self.entry.message.class self.entry.message.msgtype (pars_of self.entry.message)) }
    {
        codec_put::put_header(
            out,
            0,
            self.message.class,
            self.message.msgtype,
            self.length as u32,
        );
        self.put_pars(out);
    }
}

// Writes the message of a class, a type and a list of tags and values at the start of a buffer. The list is
// lent as the tags, the lengths of the values, and the values one after the other.
// Kept: the C interface (include/m2ua.h) has these columns; behind it they are one struct, Message.
pub fn write(
    class: u8,
    msgtype: u8,
    tags: &[u16],
    lens: &[u32],
    values: &[u8],
    out: &mut [u8],
) -> Written
    ensures { Writes class msgtype tags.now lens.now values.now out.old result out.new }
{
    let message = Message {
        class,
        msgtype,
        tags,
        lens,
        values,
    };
    Written::from(message.write_into(out))
}
