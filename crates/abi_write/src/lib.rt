// The writer for hosts in C and Rust (include/m2ua.h), which crate abi_write_c exports over the C ABI: it
// calls the entry of its name and promises the same.
#![tactic(auto)]

ghost use Rattle.codec_write.specs.Write.{Writes};

use codec_write::Written;

// Writes the message of a class, a type and a list of tags and values: the tags, the lengths of the values,
// and the values one after the other.
// Kept: abi_write_c::m2ua_write is its twin: a crate is a library or a static library, not both.
pub fn m2ua_write(
    class: u8,
    msgtype: u8,
    tags: &[u16],
    lens: &[u32],
    values: &[u8],
    out: &mut [u8],
) -> Written
    ensures { Writes class msgtype tags.now lens.now values.now out.old result out.new }
{
    codec_write::write(class, msgtype, tags, lens, values, out)
}
