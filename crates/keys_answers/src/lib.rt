// The refusals of the calls on keys: 7 for a key that does not fit, which the judgement gives, and 8 for a layer that there is not.
// The numbers of the key go back as they came.
#![tactic(auto)]

ghost use Rattle.std.specs.Prelude.{◌≡◌, [], ◌∷◌};
ghost use Rattle.key_layer.specs.Said.{numbers_of};
ghost use Rattle.refusal.specs.Answer.{refused};
ghost use Rattle.refusal.specs.declared.Refusal.TheVariants.{Shift};

use key_layer::{Layer, Refused};
pub use keys_fit::judge;
use refusal::Refusal;

// Refuses a move with 8: there is no such layer.
pub fn no_shift(ikey: u64, shift_count: usize, suffix_start: usize) -> Refused
    ensures { refused result.why (numbers_of result.layer) ≡ refused Shift (ikey ∷ shift_count ∷ suffix_start ∷ []) }
{
    let layer = Layer {
        ikey,
        shift_count,
        suffix_start,
    };
    Refused {
        why: Refusal::Shift,
        layer,
    }
}
