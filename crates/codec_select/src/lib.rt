// The parameters of a received message that go out again.
#![tactic(auto)]

ghost use Rattle.std.specs.Prelude.{◌≡◌, ◌+◌, ◌≤◌, length};
ghost use Rattle.codec_wire.specs.Walk.{walk};
ghost use Rattle.codec_put.specs.Bytes.{pars_bytes};
ghost use Rattle.codec_select.specs.Only.{only};
ghost use Rattle.codec_select.specs.Inner.Picks.{picks, PutPars};

use codec_wire::{HEADER, Step};

// Which parameters: by their tags (Rule 2.11).
// Kept: an order's form (send_message::Form) holds two of these beside its numbers, and it is copied.
#[derive(Clone, Copy)]
pub enum Which {
    Nothing,
    All,
    Mode,
    Ids,
    Heartbeat,
}

const IDS: u16 = 0x1;

const RANGES: u16 = 0x8;

const HEARTBEAT: u16 = 0x9;

const MODE: u16 = 0xb;

impl Which {
    // Whether a parameter of the tag is among them.
    fn picks(self, tag: u16) -> bool
        ensures { result ≡ picks self tag }
    {
        match self {
            Which::Nothing => false,
            Which::All => true,
            Which::Mode => tag == MODE,
            Which::Ids => (tag == IDS) | (tag == RANGES),
            Which::Heartbeat => tag == HEARTBEAT,
        }
    }
}

// How many bytes the picked parameters of a message take. Where none are wanted there is no walk.
#[tactic(auto, using(crate::proofs::Turns::size_turns))]
pub fn picked_size(msg: &[u8], which: Which) -> usize
    ensures { (result ≡ length (pars_bytes (only (picks which) (walk msg.now 8).pars))) × (result ≤ length msg.now) }
{
    if let Which::Nothing = which {
        return 0;
    }
    let mut at: usize = HEADER;
    let mut size: usize = 0;
    loop {
        let w = codec_wire::step_at(msg, at);
        let Step::Param { tag, len: _, next } = w else {
            return size;
        };
        if which.picks(tag) {
            size += next - at;
        }
        at = next;
    }
}

// The picked parameters of a message, copied from it to a position on; the position after them. Where none
// are wanted there is no walk.
#[tactic(auto, using(codec_wire::proofs::Steps::step_next))]
pub fn put_picked(out: &mut [u8], from: usize, msg: &[u8], which: Which) -> usize
    requires { from + length (pars_bytes (only (picks which) (walk msg.now 8).pars)) ≤ length out.old }
    ensures { PutPars out.old from (only (picks which) (walk msg.now 8).pars) result out.new }
{
    if let Which::Nothing = which {
        return from;
    }
    let mut at = from;
    let mut pos: usize = HEADER;
    loop {
        let w = codec_wire::step_at(msg, pos);
        let Step::Param { tag, len, next } = w else {
            return at;
        };
        if which.picks(tag) {
            let start = pos + 4;
            let stop = pos + len as usize;
            at = codec_put::put_param(out, at, tag, &msg[start..stop]);
        }
        pos = next;
    }
}
