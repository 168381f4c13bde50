// The event that a script's line says: run by the entry of its kind, what it reaches, and its actions as
// bytes.
#![tactic(auto)]

ghost use Rattle.std.specs.Prelude.{◌≡◌};
ghost use Rattle.event_asked.specs.Happened.{event, event_of};
ghost use Rattle.send_message.specs.Send.{Sends};
ghost use Rattle.event_reach.specs.Reached.{reached};
ghost use Rattle.rules_event.specs.Entry.{MeetsRules};
ghost use Rattle.tool_event_run.specs.Line.{said};
ghost use Rattle.abi_node.specs.Next.{outcome_of};

use abi_node::{Next, Node};
use codec_write::Written;
use state_tables::Gateway;
use tool_event_line::{Event, EventKind};

// One of the six events, with the index and the message of its line.
pub fn happen(e: Event, hold: &mut [u8], words: &mut [u32], g: Gateway) -> Next
    ensures { MeetsRules g (event (said e.entry.kind e.entry.index e.entry.message.now) words.old hold.old) words.old words.new hold.old hold.new (outcome_of result) }
{
    let i = e.index as usize;
    let msg = e.message;
    let node = Node { gateway: g };
    match e.kind {
        EventKind::Message => node.message(i, msg, hold, words),
        EventKind::Lost => node.lost(i, hold, words),
        EventKind::Recovery => node.recovery(i, hold, words),
        EventKind::LinkUp => node.link_up(i, hold, words),
        EventKind::LinkDown => node.link_down(i, hold, words),
        EventKind::LinkMessage => node.link_message(msg, hold, words),
    }
}

// The ASes that it reaches, where its list has as many words as the line says, and its hold `hold` bytes.
pub fn reached_by(e: Event, hold: usize, g: Gateway) -> [bool; 16]
    ensures { result ≡ reached g (event_of (said e.entry.kind e.entry.index e.entry.message.now) e.entry.words hold) }
{
    let i = e.index as usize;
    let msg = e.message;
    let room = e.words;
    match e.kind {
        EventKind::Message => event_reach::of_message(g, i, msg, room, hold),
        EventKind::Lost => event_reach::of_lost(g, i, room, hold),
        EventKind::Recovery => event_reach::of_recovery(g, i, room, hold),
        EventKind::LinkUp => event_reach::of_link_up(g, i, room, hold),
        EventKind::LinkDown => event_reach::of_link_down(g, i, room, hold),
        EventKind::LinkMessage => event_reach::of_link_message(g, msg, room, hold),
    }
}

// One of its actions as bytes.
pub fn written_by<'a>(
    e: Event<'a>,
    hold: &'a [u8],
    place: u32,
    out: &mut [u8],
    g: Gateway,
) -> Written
    ensures { Sends g hold.now (said e.entry.kind e.entry.index e.entry.message.now) place out.old result out.new }
{
    let i = e.index as usize;
    let msg = e.message;
    let n = place as usize;
    let node = Node { gateway: g };
    match e.kind {
        EventKind::Message => node.message_order(i, msg, hold, n, out),
        EventKind::Lost => node.lost_order(i, hold, n, out),
        EventKind::Recovery => node.recovery_order(i, hold, n, out),
        EventKind::LinkUp => node.link_up_order(i, hold, n, out),
        EventKind::LinkDown => node.link_down_order(i, hold, n, out),
        EventKind::LinkMessage => node.link_message_order(msg, hold, n, out),
    }
}
