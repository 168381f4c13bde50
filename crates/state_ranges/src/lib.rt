// The links inside a range of identifiers (Rule 2.11): from the first to the last of them, by the ascending
// order, so that a range costs a search and not a walk.
#![tactic(auto)]

ghost use Rattle.std.specs.Prelude.{◌≡◌, cond, ◌&&◌, ◌||◌, ◌+◌, ◌-◌, ◌<◌, ◌≤◌, leb, ltb};
ghost use Rattle.laws.specs.Below.{any_below};
ghost use Rattle.laws.specs.Columns.{flag_at, number_at, tabulate};
ghost use Rattle.state_lookup.specs.Inner.Links.{rank};
ghost use Rattle.state_sets.specs.Inner.Members.{members};
ghost use Rattle.state_ranges.specs.Named.{first_in, some_in};
ghost use Rattle.state_ranges.specs.Inner.Of.{refused_of, owned_of};
ghost use Rattle.state_ranges.specs.Inner.Owners.{owns_from, Looked};
ghost use Rattle.state_ranges.specs.Inner.Names.{earlier, as_refused, Names};

pub use state_lookup::holds;
use state_lookup::{Identifiers, Links};
use state_sets::AsSet;

// What identifiers name: the first that is refused, if one is, and the ASes that own the known ones.
#[derive(Drop)]
pub struct Named {
    pub refused: Option<u32>,
    pub set: AsSet,
}

// ---- the places inside a range

// Whether no identifier is above x, and there is one.
fn ends_by(ids: Identifiers, x: u32) -> bool
    ensures { result ≡ (ltb 0 ids.entry.count && leb (number_at ids.entry.iid.now (ids.entry.count - 1)) x) }
{
    if 0 < ids.count {
        return ids.iid[ids.count - 1] <= x;
    }
    false
}

// How many identifiers are below x. Links are often numbered one after the other: so the place as far from
// the first as x is above it is tried before the search; and what is above the last needs none.
pub fn rank_at(ids: Identifiers, x: u32) -> usize
    ensures { (result ≡ rank ids.entry.iid.now ids.entry.count x) × (result ≤ ids.entry.count) }
{
    if ids.iid[0] <= x {
        let l = (x - ids.iid[0]) as usize;
        if ids.holds(l, x) {
            return l;
        }
    }
    if 0 < ids.count {
        if ids.iid[ids.count - 1] < x {
            return ids.count;
        }
    }
    ids.rank_of(x)
}

// Past the last place inside a range: as many links as have identifiers up to stop. All of the range is known
// where stop stands as many places after the first as it is above start, so that place is tried before the
// search; and so is the last one, for a range that goes on beyond it.
pub fn past_of(ids: Identifiers, first: usize, start: u32, stop: u32) -> usize
    requires { (first ≤ ids.count) × (start ≤ stop) }
    ensures { (result ≡ rank ids.entry.iid.now ids.entry.count (stop + 1)) × (result ≤ ids.entry.count) }
{
    let last = first + (stop - start) as usize;
    if ids.holds(last, stop) {
        return last + 1;
    }
    if ends_by(ids, stop) {
        return ids.count;
    }
    let l = ids.rank_of(stop);
    if ids.holds(l, stop) {
        return l + 1;
    }
    l
}

// The set, with the owners of the places from first on, before past. The owners of the places from l up to
// far[l] are in the set already: so a message has each place looked at once, however many of its ranges hold
// it.
// Kept: the loop's place jumps over what was looked at before.
fn owners_between(set: AsSet, far: &mut [u8; 128], links: Links, first: usize, past: usize) -> AsSet
    requires { (past ≤ links.ids.count) × Looked links.owner.now far.old (members set) }
    ensures { (members result ≡ tabulate 16 (λ a. flag_at (members set) a || any_below (owns_from links.entry.owner.now first a) past)) × Looked links.entry.owner.now far.new (members result) }
{
    let end = past as u8;
    let mut r = set;
    let mut l = first;
    while l < past {
        let next = usize::from(far[l]);
        far[l] = far[l].max(end);
        if l < next {
            l = next;
            continue;
        }
        r = r.with(links.owner_at(l));
        l += 1;
    }
    r
}

// ---- one that is refused

// Whether x, that stands at l or nowhere, is unknown or its AS not in the set mine.
pub fn is_refused(links: Links, mine: AsSet, l: usize, x: u32) -> bool
    requires { l ≡ rank links.ids.iid.now links.ids.count x }
    ensures { result ≡ refused_of links.entry mine x }
{
    if links.ids.count <= l {
        return true;
    }
    (links.ids.iid[l] != x) | !mine.has(links.owner_at(l))
}

// The first of a range that is refused; `first` is the place of start. A message has this walk once at most,
// for behind what it finds no other counts.
fn first_refused(links: Links, mine: AsSet, first: usize, start: u32, stop: u32) -> Option<u32>
    requires { (first ≡ rank links.ids.iid.now links.ids.count start) × (start ≤ stop) }
    ensures { as_refused result ≡ first_in (refused_of links.entry mine) start stop }
{
    let mut l = first;
    for x in start..=stop {
        if is_refused(links, mine, l, x) {
            return Some(x);
        }
        l += 1;
    }
    None
}

// ---- a range, both ends meant

// What the identifiers from start to stop name, beside the set: the first place inside, the last, as many as
// the range has identifiers, and the owners between.
pub fn of_range(
    set: AsSet,
    far: &mut [u8; 128],
    links: Links,
    mine: AsSet,
    start: u32,
    stop: u32,
) -> Named
    requires { Looked links.owner.now far.old (members set) }
    ensures { Names result (first_in (refused_of links.entry mine) start stop) (tabulate 16 (λ a. flag_at (members set) a || some_in (owned_of links.entry a) start stop)) × Looked links.entry.owner.now far.new (members result.set) }
{
    if stop < start {
        return Named { refused: None, set };
    }
    let first = rank_at(links.ids, start);
    let past = past_of(links.ids, first, start, stop);
    let all = owners_between(set, far, links, first, past);
    if past - first == (stop - start) as usize + 1 {
        if all.is_within(mine) {
            return Named {
                refused: None,
                set: all,
            };
        }
    }
    Named {
        refused: first_refused(links, mine, first, start, stop),
        set: all,
    }
}

// The set, with the owners of the known identifiers from start to stop.
pub fn owners_in(set: AsSet, far: &mut [u8; 128], links: Links, start: u32, stop: u32) -> AsSet
    requires { Looked links.owner.now far.old (members set) }
    ensures { (members result ≡ tabulate 16 (λ a. flag_at (members set) a || some_in (owned_of links.entry a) start stop)) × Looked links.entry.owner.now far.new (members result) }
{
    if stop < start {
        return set;
    }
    let first = rank_at(links.ids, start);
    let past = past_of(links.ids, first, start, stop);
    owners_between(set, far, links, first, past)
}

// ---- beside what was named before

// What was named before, with x, that stands at l or nowhere.
pub fn with_id(old: Named, links: Links, mine: AsSet, l: usize, x: u32) -> Named
    requires { (l ≡ rank links.ids.iid.now links.ids.count x) }
    ensures { Names result (earlier (as_refused old.refused) (first_in (refused_of links.entry mine) x x)) (tabulate 16 (λ a. flag_at (members old.set) a || some_in (owned_of links.entry a) x x)) }
{
    if !links.ids.holds(l, x) {
        return Named {
            refused: old.refused.or(Some(x)),
            set: old.set,
        };
    }
    let a = links.owner_at(l);
    Named {
        refused: old.refused.or((!mine.has(a)).then_some(x)),
        set: old.set.with(a),
    }
}

// The same, with the identifiers from start to stop. Where one was refused before, none of these counts.
pub fn with_range(
    old: Named,
    far: &mut [u8; 128],
    links: Links,
    mine: AsSet,
    start: u32,
    stop: u32,
) -> Named
    requires { Looked links.owner.now far.old (members old.set) }
    ensures { Names result (earlier (as_refused old.refused) (first_in (refused_of links.entry mine) start stop)) (tabulate 16 (λ a. flag_at (members old.set) a || some_in (owned_of links.entry a) start stop)) × Looked links.entry.owner.now far.new (members result.set) }
{
    if old.refused.is_some() {
        return Named {
            refused: old.refused,
            set: owners_in(old.set, far, links, start, stop),
        };
    }
    of_range(old.set, far, links, mine, start, stop)
}
