// A change, and the ASP that it is of.

ghost use Rattle.std.specs.Prelude.{◌≡◌, true};
ghost use Rattle.rules_server.specs.Inner.Change.{fits};
ghost use Rattle.rules_server.specs.Inner.Flag.{flag_of};

use super::Change;

// A change with the flag of its ASP, which is found once, for all ASes.
#[derive(Clone, Copy)]
pub struct Moved {
    pub change: Change,
    pub me: [bool; 16],
    ghost flagged: { me ≡ flag_of change },
    ghost sane: { fits change ≡ true },
}
