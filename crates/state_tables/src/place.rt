// The places of a column, each with its index.

ghost use Rattle.std.specs.Prelude.{◌≡◌};
ghost use Rattle.state_tables.specs.Inner.Limits.{places};

// Each place holds its index, so that 16 places are compared with a count at once. (More places than are
// read: of a shorter column the compiler makes slower code.)
#[derive(Drop)]
pub struct Places {
    pub index: [u8; 128],
    ghost each: { index ≡ places },
}
