// Slot words whose positions change places, or whose size is set. The width goes beside the word; a word goes in by value and comes
// back in the answer. Every call judges its width and its word, and refuses by number.
#![tactic(auto)]

ghost use Rattle.std.specs.Prelude.{◌≡◌};
ghost use Rattle.bank.specs.Calls.{set_size, swap_free_slots, exchange, rotate};
ghost use Rattle.slot_answers.specs.Words.{changed};
ghost use Rattle.slot_answers.specs.Answers.{said_changed};

use refusal::Refusal;
use slot_answers::{Refused, judged};
use turns::inside;

// The same positions with another size.
pub fn set_size(word: u64, width: usize, n: usize) -> Result<u64, Refused>
    ensures { said_changed result ≡ changed width word (set_size n) }
{
    judged(word, width)?;
    if width < n {
        return Err(Refused {
            why: Refusal::Position,
            word,
        });
    }
    Ok(inside::resize(word, width, n))
}

// Two free positions change places.
pub fn swap_free_slots(word: u64, width: usize, i: usize, j: usize) -> Result<u64, Refused>
    ensures { said_changed result ≡ changed width word (swap_free_slots i j) }
{
    judged(word, width)?;
    let size = inside::size_of(word);
    if i < size || width <= i || j < size || width <= j {
        return Err(Refused {
            why: Refusal::Position,
            word,
        });
    }
    Ok(inside::swap(word, width, i, j))
}

// Two positions change places.
pub fn exchange(word: u64, width: usize, i: usize, j: usize) -> Result<u64, Refused>
    ensures { said_changed result ≡ changed width word (exchange i j) }
{
    judged(word, width)?;
    if width <= i || width <= j {
        return Err(Refused {
            why: Refusal::Position,
            word,
        });
    }
    Ok(inside::swap(word, width, i, j))
}

// Positions i to width-1 become old j to width-1, then old i to j-1.
pub fn rotate(word: u64, width: usize, i: usize, j: usize) -> Result<u64, Refused>
    ensures { said_changed result ≡ changed width word (rotate i j) }
{
    judged(word, width)?;
    if j < i || width < j {
        return Err(Refused {
            why: Refusal::Position,
            word,
        });
    }
    Ok(inside::moved(word, width, i, j, width, inside::size_of(word)))
}
