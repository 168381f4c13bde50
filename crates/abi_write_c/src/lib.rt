// The writer over the C ABI, for hosts in C and Rust (include/m2ua.h): it calls the entry of its name in
// crate abi_write and promises the same. It is compiled apart from the reader: compiled with it, what both
// ask of a parameter would not be compiled into the reader.
#![tactic(auto)]

ghost use Rattle.codec_write.specs.Write.{Writes};

use codec_write::Written;

// Writes the message of a class, a type and a list of tags and values: the tags, the lengths of the values,
// and the values one after the other.
// Kept: the C interface (include/m2ua.h) has this entry, apart from its twin abi_write::m2ua_write.
#[unsafe(no_mangle)]
pub extern "C" fn m2ua_write(
    class: u8,
    msgtype: u8,
    tags: &[u16],
    lens: &[u32],
    values: &[u8],
    out: &mut [u8],
) -> Written
    ensures { Writes class msgtype tags.now lens.now values.now out.old result out.new }
{
    abi_write::m2ua_write(class, msgtype, tags, lens, values, out)
}
