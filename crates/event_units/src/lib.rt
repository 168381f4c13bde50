// The columns of the units held (Rule 5.21), changed in place: what ASes that wait no longer leave of them.
#![tactic(auto)]

ghost use Rattle.std.specs.Prelude.{◌≡◌, cond, ◌&&◌, ◌/◌, ◌<◌, eqb, set};
ghost use Rattle.laws.specs.Columns.{flag_at};
ghost use Rattle.rules_servers.specs.Changed.{cleared};
ghost use Rattle.rules_servers.specs.Inner.Units.{emptied};
ghost use Rattle.event_units.specs.Inner.Going.{going};

// ---- units let go

// The ASes that let their units go: they have some, the event names them, and they wait no longer. `waiting`
// is the column after the event.
fn let_go<'a>(count: &'a [u8; 16], named: [bool; 16], waiting: &'a [u8; 16]) -> [bool; 16]
    ensures { result ≡ going count.now named waiting.now }
{
    let mut r = [false; 16];
    for a in 0..16usize {
        r[a] = (0 < count[a]) & (named[a] & !(waiting[a] == 1));
    }
    r
}

// The same. Mostly none are held: then `waiting`, of which the event has just written a byte, is not read in
// one piece, for which the processor would have to wait.
pub fn goes<'a>(count: &'a [u8; 16], named: [bool; 16], waiting: &'a [u8; 16]) -> [bool; 16]
    ensures { result ≡ going count.now named waiting.now }
{
    if state_sound::none_counted(count) {
        return [false; 16];
    }
    let_go(count, named, waiting)
}

fn unless(t: bool, x: u8) -> u8
    ensures { result ≡ cond t 0 x }
{
    if t { 0 } else { x }
}

// An AS that lets its units go has 0.
pub fn clear_counts(c: &mut [u8; 16], go: [bool; 16])
    ensures { c.new ≡ cleared (flag_at go) c.old }
{
    for a in 0..16usize {
        c[a] = unless(go[a], c[a]);
    }
}

// The row of AS a, where it lets them go.
fn clear_row<T: Copy>(c: &mut [T; 128], zero: T, a: usize, go: bool)
    requires { a < 16 }
    ensures { c.new ≡ emptied zero (λ i. go && eqb (i / 8) a) c.old }
{
    if !go {
        return;
    }
    for k in 0..8usize {
        c[a * 8 + k] = zero;
    }
}

// The rows of the ASes that let their units go.
pub fn clear_rows<T: Copy>(c: &mut [T; 128], zero: T, go: [bool; 16])
    ensures { c.new ≡ emptied zero (λ i. flag_at go (i / 8)) c.old }
{
    for a in 0..16usize {
        clear_row(c, zero, a, go[a]);
    }
}
