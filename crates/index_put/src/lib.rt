// A new key in lent memory of right lengths, whatever stands there: a put for callers who have judged memory, or know it good.
#![tactic(auto)]

pub mod inside;

ghost use Rattle.std.specs.Prelude.{◌≡◌};
ghost use Rattle.index_put.specs.declared.PutRefused.TheVariants.{Refused};

use refusal::Refusal;

// Why a put is refused. One that is made answers how many slots rest in the leaf where the key is now.
#[derive(Clone, Copy)]
pub enum PutRefused {
    // 14: so many nodes fewer are free than the put needs
    TooFewNodes(u64),
    Refused(Refusal),
}

impl From<Refusal> for PutRefused {
    ghost from_gives = { λ why e. e ≡ Refused why };

    fn from(why: Refusal) -> PutRefused {
        PutRefused::Refused(why)
    }
}
