// The reader, the plan's loader and the question whether a state is sound over the C ABI, for hosts in C and
// Rust (include/m2ua.h): each calls the entry of its name in crate abi_read and promises the same.
// Kept: twins of the entries of abi_read: a crate is a library or a static library (decision 177).
#![tactic(auto)]

ghost use Rattle.std.specs.Prelude.{◌≡◌, cond};
ghost use Rattle.codec_read.specs.Meaning.{reading_of};
ghost use Rattle.state_plan.specs.Plan.{load_of};
ghost use Rattle.state_tables.specs.Sound.{is_sound};
ghost use Rattle.state_tables.specs.State.{gateway_of, units_of};

use codec_read::Reading;
use state_plan::Loaded;

// Reads a message: its verdict, and of an accepted one what it means.
#[unsafe(no_mangle)]
pub extern "C" fn m2ua_read(msg: &[u8]) -> Reading
    ensures { result ≡ reading_of msg.now }
{
    abi_read::m2ua_read(msg)
}

// Loads a plan file: a fresh state, or a refusal with a state of zeros.
#[unsafe(no_mangle)]
pub extern "C" fn m2ua_load(file: &[u8]) -> Loaded
    ensures { result ≡ load_of file.now }
{
    abi_read::m2ua_load(file)
}

// 1 where the state is sound (Rule 5.4), else 0. Its columns are lent, and only read.
// Kept: the C interface (include/m2ua.h) has these columns.
#[unsafe(no_mangle)]
pub extern "C" fn m2ua_is_sound_at<'a>(
    asps: u8,
    ases: u8,
    links: u8,
    spare: u8,
    aspid: &'a [u32; 16],
    up: &'a [u8; 16],
    member: &'a [u8; 256],
    active: &'a [u8; 256],
    mode: &'a [u8; 16],
    waiting: &'a [u8; 16],
    iid: &'a [u32; 128],
    owner: &'a [u8; 128],
    state: &'a [u8; 128],
    highspeed: &'a [u8; 128],
    wholelists: &'a [u8; 16],
    count: &'a [u8; 16],
    tag: &'a [u16; 128],
    len: &'a [u16; 128],
    marked: &'a [u16; 128],
    id: &'a [u32; 128],
    correlation: &'a [u32; 128],
) -> u32
    ensures { result ≡ cond (is_sound (gateway_of asps ases links spare aspid.now up.now member.now active.now mode.now waiting.now iid.now owner.now state.now highspeed.now wholelists.now (units_of count.now tag.now len.now marked.now id.now correlation.now))) 1 0 }
{
    abi_read::m2ua_is_sound_at(
        asps,
        ases,
        links,
        spare,
        aspid,
        up,
        member,
        active,
        mode,
        waiting,
        iid,
        owner,
        state,
        highspeed,
        wholelists,
        count,
        tag,
        len,
        marked,
        id,
        correlation,
    )
}
