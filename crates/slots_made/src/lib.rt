// Slot words made, and taken in from outside. The width goes beside the word. Every call judges its width, and its word if it has one, and
// refuses by number.
#![tactic(auto)]

ghost use Rattle.std.specs.Prelude.{◌≡◌};
ghost use Rattle.bank.specs.Calls.{from_value};
ghost use Rattle.slot_answers.specs.Words.{changed, made_sorted, made_empty};
ghost use Rattle.slot_answers.specs.Answers.{said_changed, said_made};

use refusal::Refusal;
use slot_answers::{Refused, judged};
use slots_sorted::inside::sorted;
use turns::inside;

// The word with no slot in use: slot 0 at the back goes out first.
pub fn empty(width: usize) -> Result<u64, Refusal>
    ensures { said_made result ≡ made_empty width }
{
    if width < 1 || 15 < width {
        return Err(Refusal::Width);
    }
    Ok(sorted(width, 0))
}

// The word with slots 0 to n-1 in use, in order.
pub fn make_sorted(width: usize, n: usize) -> Result<u64, Refusal>
    ensures { said_made result ≡ made_sorted width n }
{
    if width < 1 || 15 < width {
        return Err(Refusal::Width);
    }
    if width < n {
        return Err(Refusal::Position);
    }
    Ok(sorted(width, n))
}

// A word from outside, without what strays above its width, where that is valid.
pub fn from_value(word: u64, width: usize) -> Result<u64, Refused>
    ensures { said_changed result ≡ changed width word from_value }
{
    judged(word, width)?;
    Ok(inside::cleared(word, width))
}
