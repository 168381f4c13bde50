// The gateway with its events as methods, by value: each lends the columns of its own state to the event, and
// hands back a node with them for the next event.
#![tactic(auto)]

ghost use Rattle.rules_event.specs.Event.{message, lost, recovery, link_up, link_down, link_message, bare};
ghost use Rattle.rules_event.specs.Entry.{MeetsRules};
ghost use Rattle.event_asked.specs.Happened.{event};
ghost use Rattle.event_asked.specs.Inner.Kind.{said};
ghost use Rattle.send_message.specs.Send.{Sends};
ghost use Rattle.std.specs.Prelude.{◌<◌};
ghost use Rattle.abi_node.specs.Next.{outcome_of, headed};

use codec_wire::HEADER;
use codec_write::Written;
use event_asked::EventKind;
use state_tables::Gateway;

// The most bytes that the parameters of a message may have, of 2,048 in all (Rule 2.1).
const MOST_PARAMETERS: usize = 2040;

// (An `impl` stands in the crate of its type: hence the struct around the state.)
#[repr(C)]
#[derive(Drop)]
pub struct Node {
    pub gateway: Gateway,
}

// What an event hands back: a refusal, or 0; the number of actions written; and the node, for the next event.
// Kept: no Result, since a refused event hands the node back too, and `MeetsRules` speaks of all three.
#[repr(C)]
#[derive(Drop)]
pub struct Next {
    pub refusal: u32,
    pub count: usize,
    pub node: Node,
}

impl Node {
    // Every event.
    fn happen(
        self,
        kind: EventKind,
        i: usize,
        msg: &[u8],
        hold: &mut [u8],
        words: &mut [u32],
    ) -> Next
        ensures { MeetsRules self.gateway (event (said kind i msg.now) words.old hold.old) words.old words.new hold.old hold.new (outcome_of result) }
    {
        let mut g = self.gateway;
        let state = &mut g;
        let done = event_run::m2ua_event_at(
            state.asps,
            state.ases,
            state.links,
            state.spare,
            &state.aspid,
            &mut state.up,
            &state.member,
            &mut state.active,
            &state.mode,
            &mut state.waiting,
            &state.iid,
            &state.owner,
            &mut state.state,
            &state.highspeed,
            &state.wholelists,
            &mut state.held.count,
            &mut state.held.tag,
            &mut state.held.length,
            &mut state.held.marked,
            &mut state.held.id,
            &mut state.held.correlation,
            u32::from(kind),
            i,
            msg,
            hold,
            words,
        );
        Next {
            refusal: done.refusal,
            count: done.count,
            node: Node { gateway: g },
        }
    }

    // A message of ASP p.
    pub fn message(self, p: usize, msg: &[u8], hold: &mut [u8], words: &mut [u32]) -> Next
        ensures { MeetsRules self.gateway (event (message p msg.now) words.old hold.old) words.old words.new hold.old hold.new (outcome_of result) }
    {
        self.happen(EventKind::Message, p, msg, hold, words)
    }

    // The message of ASP p that has a class and a type, and no parameters.
    fn plain(self, p: usize, class: u8, msgtype: u8, hold: &mut [u8], words: &mut [u32]) -> Next
        ensures { MeetsRules self.gateway (event (message p (bare class msgtype)) words.old hold.old) words.old words.new hold.old hold.new (outcome_of result) }
    {
        self.happen(
            EventKind::Message,
            p,
            &[1, 0, class, msgtype, 0, 0, 0, 8],
            hold,
            words,
        )
    }

    // Up of ASP p.
    pub fn up(self, p: usize, hold: &mut [u8], words: &mut [u32]) -> Next
        ensures { MeetsRules self.gateway (event (message p (bare 3 1)) words.old hold.old) words.old words.new hold.old hold.new (outcome_of result) }
    {
        self.plain(p, 3, 1, hold, words)
    }

    // Down of ASP p.
    pub fn down(self, p: usize, hold: &mut [u8], words: &mut [u32]) -> Next
        ensures { MeetsRules self.gateway (event (message p (bare 3 2)) words.old hold.old) words.old words.new hold.old hold.new (outcome_of result) }
    {
        self.plain(p, 3, 2, hold, words)
    }

    // Active of ASP p, in all of its ASes.
    pub fn active(self, p: usize, hold: &mut [u8], words: &mut [u32]) -> Next
        ensures { MeetsRules self.gateway (event (message p (bare 4 1)) words.old hold.old) words.old words.new hold.old hold.new (outcome_of result) }
    {
        self.plain(p, 4, 1, hold, words)
    }

    // Inactive of ASP p, in all of its ASes.
    pub fn inactive(self, p: usize, hold: &mut [u8], words: &mut [u32]) -> Next
        ensures { MeetsRules self.gateway (event (message p (bare 4 2)) words.old hold.old) words.old words.new hold.old hold.new (outcome_of result) }
    {
        self.plain(p, 4, 2, hold, words)
    }

    // The message of ASP p that has a class, a type and parameters, whose bytes are lent. One that is too
    // long to read is answered as any message that the reader refuses with 7.
    fn headed(
        self,
        p: usize,
        class: u8,
        msgtype: u8,
        pars: &[u8],
        hold: &mut [u8],
        words: &mut [u32],
    ) -> Next
        requires { 0 < class }
        ensures { MeetsRules self.gateway (event (message p (headed class msgtype pars.now)) words.old hold.old) words.old words.new hold.old hold.new (outcome_of result) }
    {
        if MOST_PARAMETERS < pars.len() {
            return self.happen(EventKind::Message, p, &[0; 1], hold, words);
        }
        let size = HEADER + pars.len();
        let mut block = [0u8; 2048];
        codec_put::put_header(&mut block, 0, class, msgtype, size as u32);
        codec_put::put_bytes(&mut block, HEADER, pars);
        self.happen(EventKind::Message, p, &block[..size], hold, words)
    }

    // Up of ASP p with parameters: its identifier, a text.
    pub fn up_with(self, p: usize, pars: &[u8], hold: &mut [u8], words: &mut [u32]) -> Next
        ensures { MeetsRules self.gateway (event (message p (headed 3 1 pars.now)) words.old hold.old) words.old words.new hold.old hold.new (outcome_of result) }
    {
        self.headed(p, 3, 1, pars, hold, words)
    }

    // Down of ASP p with parameters: a text.
    pub fn down_with(self, p: usize, pars: &[u8], hold: &mut [u8], words: &mut [u32]) -> Next
        ensures { MeetsRules self.gateway (event (message p (headed 3 2 pars.now)) words.old hold.old) words.old words.new hold.old hold.new (outcome_of result) }
    {
        self.headed(p, 3, 2, pars, hold, words)
    }

    // Active of ASP p with parameters: a traffic mode, identifiers, a text.
    pub fn active_with(self, p: usize, pars: &[u8], hold: &mut [u8], words: &mut [u32]) -> Next
        ensures { MeetsRules self.gateway (event (message p (headed 4 1 pars.now)) words.old hold.old) words.old words.new hold.old hold.new (outcome_of result) }
    {
        self.headed(p, 4, 1, pars, hold, words)
    }

    // Inactive of ASP p with parameters: identifiers, a text.
    pub fn inactive_with(self, p: usize, pars: &[u8], hold: &mut [u8], words: &mut [u32]) -> Next
        ensures { MeetsRules self.gateway (event (message p (headed 4 2 pars.now)) words.old hold.old) words.old words.new hold.old hold.new (outcome_of result) }
    {
        self.headed(p, 4, 2, pars, hold, words)
    }

    // The association of ASP p is lost.
    pub fn lost(self, p: usize, hold: &mut [u8], words: &mut [u32]) -> Next
        ensures { MeetsRules self.gateway (event (lost p) words.old hold.old) words.old words.new hold.old hold.new (outcome_of result) }
    {
        self.happen(EventKind::Lost, p, &[0; 1], hold, words)
    }

    // The recovery time of AS a is over.
    pub fn recovery(self, a: usize, hold: &mut [u8], words: &mut [u32]) -> Next
        ensures { MeetsRules self.gateway (event (recovery a) words.old hold.old) words.old words.new hold.old hold.new (outcome_of result) }
    {
        self.happen(EventKind::Recovery, a, &[0; 1], hold, words)
    }

    // The link at index l is up.
    pub fn link_up(self, l: usize, hold: &mut [u8], words: &mut [u32]) -> Next
        ensures { MeetsRules self.gateway (event (link_up l) words.old hold.old) words.old words.new hold.old hold.new (outcome_of result) }
    {
        self.happen(EventKind::LinkUp, l, &[0; 1], hold, words)
    }

    // The link at index l is down.
    pub fn link_down(self, l: usize, hold: &mut [u8], words: &mut [u32]) -> Next
        ensures { MeetsRules self.gateway (event (link_down l) words.old hold.old) words.old words.new hold.old hold.new (outcome_of result) }
    {
        self.happen(EventKind::LinkDown, l, &[0; 1], hold, words)
    }

    // A message of the link side.
    pub fn link_message(self, msg: &[u8], hold: &mut [u8], words: &mut [u32]) -> Next
        ensures { MeetsRules self.gateway (event (link_message msg.now) words.old hold.old) words.old words.new hold.old hold.new (outcome_of result) }
    {
        self.happen(EventKind::LinkMessage, 0, msg, hold, words)
    }

    // ---- one action of an event as bytes (Rule 8.15)

    // Of every event.
    #[tactic(auto, using(event_asked::specs::Inner::Kind::happened_number))]
    fn order<'a>(
        self,
        kind: EventKind,
        i: usize,
        msg: &'a [u8],
        hold: &'a [u8],
        place: usize,
        out: &mut [u8],
    ) -> Written
        ensures { Sends self.gateway hold.now (said kind i msg.now) place out.old result out.new }
    {
        let g = self.gateway;
        send_orders::m2ua_order_at(
            g.asps,
            g.ases,
            g.links,
            g.spare,
            &g.aspid,
            &g.up,
            &g.member,
            &g.active,
            &g.mode,
            &g.waiting,
            &g.iid,
            &g.owner,
            &g.state,
            &g.highspeed,
            &g.wholelists,
            &g.held.count,
            &g.held.tag,
            &g.held.length,
            &g.held.marked,
            &g.held.id,
            &g.held.correlation,
            u32::from(kind),
            i,
            msg,
            hold,
            place,
            out,
        )
    }

    // Of a message of ASP p.
    pub fn message_order<'a>(
        self,
        p: usize,
        msg: &'a [u8],
        hold: &'a [u8],
        place: usize,
        out: &mut [u8],
    ) -> Written
        ensures { Sends self.gateway hold.now (message p msg.now) place out.old result out.new }
    {
        self.order(EventKind::Message, p, msg, hold, place, out)
    }

    // Of the loss of ASP p's association.
    pub fn lost_order(self, p: usize, hold: &[u8], place: usize, out: &mut [u8]) -> Written
        ensures { Sends self.gateway hold.now (lost p) place out.old result out.new }
    {
        self.order(EventKind::Lost, p, &[0; 1], hold, place, out)
    }

    // Of the end of AS a's recovery time.
    pub fn recovery_order(self, a: usize, hold: &[u8], place: usize, out: &mut [u8]) -> Written
        ensures { Sends self.gateway hold.now (recovery a) place out.old result out.new }
    {
        self.order(EventKind::Recovery, a, &[0; 1], hold, place, out)
    }

    // Of the link at index l that is up.
    pub fn link_up_order(self, l: usize, hold: &[u8], place: usize, out: &mut [u8]) -> Written
        ensures { Sends self.gateway hold.now (link_up l) place out.old result out.new }
    {
        self.order(EventKind::LinkUp, l, &[0; 1], hold, place, out)
    }

    // Of the link at index l that is down.
    pub fn link_down_order(self, l: usize, hold: &[u8], place: usize, out: &mut [u8]) -> Written
        ensures { Sends self.gateway hold.now (link_down l) place out.old result out.new }
    {
        self.order(EventKind::LinkDown, l, &[0; 1], hold, place, out)
    }

    // Of a message of the link side.
    pub fn link_message_order<'a>(
        self,
        msg: &'a [u8],
        hold: &'a [u8],
        place: usize,
        out: &mut [u8],
    ) -> Written
        ensures { Sends self.gateway hold.now (link_message msg.now) place out.old result out.new }
    {
        self.order(EventKind::LinkMessage, 0, msg, hold, place, out)
    }
}
