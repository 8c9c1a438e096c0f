// A reception that keeps its rules, whose numbers are bytes.
ghost use Rattle.std.specs.Prelude.{◌≡◌, true};
ghost use Rattle.receiver.specs.Receptions.{sound_reception};
ghost use Rattle.receiver.specs.Lent.{in_bytes};

use crate::reception::Reception;

#[derive(Clone, Copy)]
pub struct Sound {
    pub reception: Reception,
    ghost bytes: { in_bytes reception ≡ true },
    ghost rules: { sound_reception reception ≡ true },
}
