// The links of sound tables.

ghost use Rattle.std.specs.Prelude.{◌≡◌, ◌≤◌, true};
ghost use Rattle.state_tables.specs.Sound.{all_under};

// Their identifiers, and which AS owns each: so many places are in use.
#[derive(Clone, Copy)]
pub struct Links<'a> {
    pub iid: &'a [u32; 128],
    pub owner: &'a [u8; 128],
    pub count: usize,
    ghost few: { count ≤ 128 },
    ghost owned: { all_under owner.now 16 count ≡ true },
}
