// What the events ask of the gateway's state.
#![tactic(auto)]

ghost use Rattle.std.specs.Prelude.{◌≡◌, ◌&&◌, cond, ◌%◌, ◌<◌};
ghost use Rattle.laws.specs.Below.{any_below};
ghost use Rattle.laws.specs.Columns.{is_set, tabulate};
ghost use Rattle.state_tables.specs.Sound.{pair};
ghost use Rattle.state_lookup.specs.Servers.{receives};
ghost use Rattle.state_lookup.specs.Inner.Servers.{state_of};

mod links;

pub use links::{Identifiers, Links, holds};

// ---- ASes

// Kept: `a < 16` and `p < 16` stand in each contract: an index type with the bound would be no plainer.

// Whether ASP p is a member of AS a.
pub fn is_member(member: &[u8; 256], a: usize, p: usize) -> bool
    requires { (a < 16) × (p < 16) }
    ensures { result ≡ is_set member.now (pair a p) }
{
    member[a * 16 + p] == 1
}

// Whether some member of AS a is active.
pub fn some_active(active: &[u8; 256], a: usize) -> bool
    requires { a < 16 }
    ensures { result ≡ any_below (λ q. is_set active.now (pair a q)) 16 }
{
    let mut found = false;
    for q in 0..16usize {
        found = found | (active[a * 16 + q] == 1);
    }
    found
}

// Whether some member of AS a is up.
// Kept: beside some_active: a test of two columns, and a closure for it would be no plainer.
pub fn some_up<'a>(up: &'a [u8; 16], member: &'a [u8; 256], a: usize) -> bool
    requires { a < 16 }
    ensures { result ≡ any_below (λ q. is_set member.now (pair a q) && is_set up.now q) 16 }
{
    let mut found = false;
    for q in 0..16usize {
        found = found | ((member[a * 16 + q] == 1) & (up[q] == 1));
    }
    found
}

// Kept: the C interface (include/m2ua.h) and Notify tell these numbers.
// The state of AS a (Rule 5.2): 0 down, 2 inactive, 3 active, 4 pending.
pub fn as_state<'a>(
    up: &'a [u8; 16],
    member: &'a [u8; 256],
    active: &'a [u8; 256],
    waiting: &'a [u8; 16],
    a: usize,
) -> u32
    requires { a < 16 }
    ensures { result ≡ state_of up.now member.now active.now waiting.now a }
{
    let acts = some_active(active, a);
    let ups = some_up(up, member, a);
    state_from(acts, waiting[a] == 1, ups)
}

fn state_from(acts: bool, waits: bool, ups: bool) -> u32
    ensures { result ≡ cond acts 3 (cond waits 4 (cond ups 2 0)) }
{
    if acts {
        return 3;
    }
    if waits {
        return 4;
    }
    if ups {
        return 2;
    }
    0
}

// x modulo k, and x where k is 0.
fn rest(x: u32, k: usize) -> usize
    ensures { result ≡ x % k }
{
    let n = x as usize;
    if k == 0 {
        return n;
    }
    n % k
}

// Who gets a message of a link of AS a: a flag for each ASP (Rule 5.15). x is the number that load-share goes
// by.
pub fn recipients(active: &[u8; 256], mode: u8, a: usize, x: u32) -> [bool; 16]
    requires { a < 16 }
    ensures { result ≡ tabulate 16 (receives active.now mode a x) }
{
    let k = state_tables::count_active(active, a);
    let place = rest(x, k);
    let mut r = [false; 16];
    let mut n: usize = 0;
    for q in 0..16usize {
        let on = active[a * 16 + q] == 1;
        r[q] = on & ((mode != 2) | (n == place));
        n = n + usize::from(on);
    }
    r
}
