// The links that messages list.

ghost use Rattle.std.specs.Prelude.{◌≤◌};

// The identifier of each link, and which AS owns it.
#[derive(Clone, Copy)]
pub struct Owners<'a> {
    pub iid: &'a [u32; 128],
    pub owner: &'a [u8; 128],
    pub links: usize,
    ghost few: { links ≤ 128 },
}
