// A set of ASes, as the bits of a number: AS a is bit a. (A table of flags would be kept in sixteen
// registers, element by element.)
#![tactic(auto)]

ghost use Rattle.std.specs.Prelude.{◌≡◌, true, false, cond, not, ◌||◌, ◌&&◌, set, replicate, ◌<◌};
ghost use Rattle.laws.specs.Below.{all_below, any_below};
ghost use Rattle.laws.specs.Columns.{flag_at, tabulate};
ghost use Rattle.state_sets.specs.Inner.Members.{members};

#[derive(Clone, Copy)]
pub struct AsSet {
    pub bits: u32,
}

impl AsSet {
    pub fn empty() -> AsSet
        ensures { members result ≡ replicate 16 false }
    {
        AsSet { bits: 0 }
    }

    // Whether AS a is in the set.
    pub fn has(self, a: usize) -> bool
        requires { a < 16 }
        ensures { result ≡ flag_at (members self) a }
    {
        (self.bits >> (a as u32)) % 2 == 1
    }

    // The set, with AS a.
    pub fn with(self, a: usize) -> AsSet
        requires { a < 16 }
        ensures { members result ≡ set (members self) a true }
    {
        AsSet {
            bits: self.bits | (1u32 << (a as u32)),
        }
    }

    // The set, with AS a where t holds. (Without a branch: of many identifiers nobody can tell ahead which
    // are known.)
    pub fn with_if(self, a: usize, t: bool) -> AsSet
        requires { a < 16 }
        ensures { members result ≡ cond t (set (members self) a true) (members self) }
    {
        AsSet {
            bits: self.bits | (u32::from(t) << (a as u32)),
        }
    }

    // Whether every AS of the set is in the other one.
    pub fn is_within(self, other: AsSet) -> bool
        ensures { result ≡ all_below (λ a. not (flag_at (members self) a) || flag_at (members other) a) 16 }
    {
        (self.bits | other.bits) % 65536 == other.bits % 65536
    }

    // The ASes that are in both sets.
    pub fn common(self, other: AsSet) -> AsSet
        ensures { members result ≡ tabulate 16 (λ a. flag_at (members self) a && flag_at (members other) a) }
    {
        AsSet {
            bits: self.bits & other.bits,
        }
    }

    // Whether no AS is in the set.
    pub fn is_empty(self) -> bool
        ensures { result ≡ not (any_below (flag_at (members self)) 16) }
    {
        self.bits % 65536 == 0
    }

    // The set as flags.
    pub fn flags(self) -> [bool; 16]
        ensures { result ≡ members self }
    {
        let mut r = [false; 16];
        for a in 0..16usize {
            r[a] = self.has(a);
        }
        r
    }
}
