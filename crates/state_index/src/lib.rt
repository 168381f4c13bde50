// Links by identifier, for a message that names many: a table made once, so that an identifier is found, or
// known to be none, without a search.
#![tactic(auto)]

ghost use Rattle.std.specs.Prelude.{◌≡◌, cond, ◌+◌, ◌-◌, ◌<◌, ◌≤◌, eqb};
ghost use Rattle.std.specs.Bool.{then_some};
ghost use Rattle.state_lookup.specs.Inner.Index.{IndexIs};
ghost use Rattle.state_index.specs.Inner.Spots.{slot_of, Spots};

use state_lookup::Identifiers;

// What stands at a spot that several links fall on.
const SEVERAL: u8 = 255;

// The spot of identifier x: ten bits of a product, so that numbers with any gaps spread.
fn slot_of(x: u32) -> usize
    ensures { (result ≡ slot_of x) × (result < 1024) }
{
    (u64::from(x) * 2654435761 % 4294967296 / 4194304) as usize
}

// What stands at a spot when link l falls on it too: l + 1 where it was free.
fn added(old: u8, l: usize) -> u8
    requires { l < 128 }
    ensures { result ≡ cond (eqb old 0) (l + 1) 255 }
{
    if old == 0 { (l + 1) as u8 } else { SEVERAL }
}

// The table: at the spot of each link's identifier the link's place and 1, or SEVERAL; 0 where none falls.
// Kept: columns, since it asks less than `Identifiers` keep: not that they ascend.
pub fn table_of(iid: &[u32; 128], links: usize) -> [u8; 1024]
    requires { links ≤ 128 }
    ensures { Spots result iid.now links }
{
    let mut table = [0u8; 1024];
    for l in 0..links {
        let h = slot_of(iid[l]);
        let t = added(table[h], l);
        table[h] = t;
    }
    table
}

// Whether an identifier is known, and where it stands; else any place of the column.
// Kept: as an Option<usize> 509 ids in no order take 13 per cent longer, since a place is chosen for none.
#[derive(Drop)]
pub struct Found {
    pub known: bool,
    pub at: usize,
}

fn before(t: usize) -> usize
    ensures { result ≡ cond (eqb t 0) 0 (t - 1) }
{
    if t == 0 { 0 } else { t - 1 }
}

fn searched(ids: Identifiers, x: u32) -> Found
    ensures { IndexIs ids.entry.iid.now ids.entry.count x (then_some result.known result.at) × (result.at < 128) }
{
    match ids.index_of(x) {
        Some(l) => Found { known: true, at: l },
        None => Found {
            known: false,
            at: 0,
        },
    }
}

// Where identifier x stands. No branch goes by whether it is known, so that identifiers in no order cost no
// wrong guesses of the processor; a search is made where several links fall on one spot.
pub fn find<'a>(table: &'a [u8; 1024], ids: Identifiers<'a>, x: u32) -> Found
    requires { Spots table.now ids.iid.now ids.count }
    ensures { IndexIs ids.entry.iid.now ids.entry.count x (then_some result.known result.at) × (result.at < 128) }
{
    let t = table[slot_of(x)];
    if t == SEVERAL {
        return searched(ids, x);
    }
    let l = before(usize::from(t));
    Found {
        known: (t != 0) & (ids.iid[l] == x),
        at: l,
    }
}
