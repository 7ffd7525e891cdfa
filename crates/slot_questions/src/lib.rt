// What a slot word is asked. The width goes beside the word, which goes in by value. Every call judges its width and its word, and refuses
// by number.
#![tactic(auto)]

ghost use Rattle.std.specs.Prelude.{◌≡◌};
ghost use Rattle.bank.specs.Calls.{size, get, back, back_at_offset};
ghost use Rattle.slot_answers.specs.Words.{asked};
ghost use Rattle.slot_answers.specs.Answers.{said_told};

use refusal::Refusal;
use slot_answers::{Refused, judged};
use turns::inside;

// How many slots are in use.
pub fn size(word: u64, width: usize) -> Result<usize, Refused>
    ensures { said_told result ≡ asked width word size }
{
    judged(word, width)?;
    Ok(inside::size_of(word))
}

// The slot at a position, in use or free.
pub fn get(word: u64, width: usize, i: usize) -> Result<usize, Refused>
    ensures { said_told result ≡ asked width word (get i) }
{
    judged(word, width)?;
    if width <= i {
        return Err(Refused {
            why: Refusal::Position,
            word,
        });
    }
    Ok(inside::nibble(word, i + 1))
}

// The slot at the last position.
pub fn back(word: u64, width: usize) -> Result<usize, Refused>
    ensures { said_told result ≡ asked width word back }
{
    judged(word, width)?;
    Ok(inside::nibble(word, width))
}

// The free slot that is so many places before the last position.
pub fn back_at_offset(word: u64, width: usize, offset: usize) -> Result<usize, Refused>
    ensures { said_told result ≡ asked width word (back_at_offset offset) }
{
    judged(word, width)?;
    if width - inside::size_of(word) <= offset {
        return Err(Refused {
            why: Refusal::Position,
            word,
        });
    }
    Ok(inside::nibble(word, width - offset))
}
