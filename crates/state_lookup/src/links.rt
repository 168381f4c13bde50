// The links of a sound state, as the columns that are searched.

ghost use Rattle.std.specs.Prelude.{◌≡◌, ◌&&◌, ◌+◌, ◌*◌, ◌/◌, ◌<◌, ◌≤◌, true, eqb, ltb};
ghost use Rattle.laws.specs.Below.{count_below};
ghost use Rattle.laws.specs.Columns.{number_at};
ghost use Rattle.state_tables.specs.Sound.{ascends, all_under};
ghost use Rattle.state_lookup.specs.Links.{known};
ghost use Rattle.state_lookup.specs.Inner.Links.{rank};
ghost use Rattle.state_lookup.specs.Inner.Index.{IndexIs};

// The interface identifiers of the links: so many places are in use, and they ascend.
#[derive(Clone, Copy)]
pub struct Identifiers<'a> {
    pub iid: &'a [u32; 128],
    pub count: usize,
    ghost few: { count ≤ 128 },
    ghost order: { ascends iid.now count ≡ true },
}

// They, and which AS owns each link.
#[derive(Clone, Copy)]
pub struct Links<'a> {
    pub ids: Identifiers<'a>,
    pub owner: &'a [u8; 128],
    ghost owned: { all_under owner.now 16 ids.count ≡ true },
}

// How many of the n places from first on have an identifier below x.
fn below_from(iid: &[u32; 128], first: usize, n: usize, x: u32) -> usize
    requires { first + n ≤ 128 }
    ensures { result ≡ count_below (λ j. ltb (number_at iid.now (first + j)) x) n }
{
    let mut c: u32 = 0;
    for j in 0..n {
        c = c + u32::from(iid[first + j] < x);
    }
    c as usize
}

// Whether x stands at place l. (It asks for no order, so it stands beside the struct.)
pub fn holds(iid: &[u32; 128], links: usize, l: usize, x: u32) -> bool
    requires { links ≤ 128 }
    ensures { result ≡ (ltb l links && eqb (number_at iid.now l) x) }
{
    if l < links {
        return iid[l] == x;
    }
    false
}

impl<'a> Identifiers<'a> {
    // How many of the places 0, 8, 16, .. have an identifier below x.
    fn eighths_below(self, x: u32) -> usize
        ensures { result ≡ count_below (λ k. ltb (number_at self.entry.iid.now (8 * k)) x) ((self.entry.count + 7) / 8) }
    {
        let n = (self.count + 7) / 8;
        let mut c: u32 = 0;
        for k in 0..n {
            c = c + u32::from(self.iid[8 * k] < x);
        }
        c as usize
    }

    // How many identifiers are below x: every eighth place is asked, then those of one eighth. (Of six
    // searches timed, the fastest for identifiers in no order.)
    pub fn rank_of(self, x: u32) -> usize
        ensures { (result ≡ rank self.entry.iid.now self.entry.count x) × (result ≤ self.entry.count) }
    {
        let k = self.eighths_below(x);
        if k == 0 {
            return 0;
        }
        let first = 8 * k - 8;
        first + below_from(self.iid, first, (self.count - first).min(8), x)
    }

    // Whether x stands at place l.
    pub fn holds(self, l: usize, x: u32) -> bool
        ensures { result ≡ (ltb l self.entry.count && eqb (number_at self.entry.iid.now l) x) }
    {
        holds(self.iid, self.count, l, x)
    }

    // The index of the link with identifier x, if there is one.
    pub fn index_of(self, x: u32) -> Option<usize>
        ensures { IndexIs self.entry.iid.now self.entry.count x result }
    {
        let l = self.rank_of(x);
        if self.holds(l, x) {
            return Some(l);
        }
        None
    }

    // Whether the identifier x is in the plan.
    pub fn is_known(self, x: u32) -> bool
        ensures { result ≡ known self.entry.iid.now self.entry.count x }
    {
        self.index_of(x).is_some()
    }
}

impl<'a> Links<'a> {
    // The AS that owns the link at l.
    pub fn owner_at(self, l: usize) -> usize
        requires { l < self.ids.count }
        ensures { (result ≡ number_at self.entry.owner.now l) × (result < 16) }
    {
        usize::from(self.owner[l])
    }
}
