// Removal from a slot word, and its opposite. The width goes beside the word, which goes in by value and comes back in the answer. Every
// call judges its width and its word, and refuses by number.
#![tactic(auto)]

ghost use Rattle.std.specs.Prelude.{◌≡◌};
ghost use Rattle.bank.specs.Calls.{insert_first_free, remove, remove_to_back, remove_slot};
ghost use Rattle.slot_answers.specs.Words.{changed};
ghost use Rattle.slot_answers.specs.Answers.{said_changed};

use refusal::Refusal;
use slot_answers::{Refused, judged};
use turns::inside;

// The slot at position i rests behind every other free one.
pub fn remove(word: u64, width: usize, i: usize) -> Result<u64, Refused>
    ensures { said_changed result ≡ changed width word (remove i) }
{
    judged(word, width)?;
    let size = inside::size_of(word);
    if size <= i {
        return Err(Refused {
            why: Refusal::Position,
            word,
        });
    }
    Ok(inside::moved(word, width, i, i + 1, size, size - 1))
}

// The slot at position i goes to the back, where the next insertion finds it: the opposite of an insertion.
pub fn remove_to_back(word: u64, width: usize, i: usize) -> Result<u64, Refused>
    ensures { said_changed result ≡ changed width word (remove_to_back i) }
{
    judged(word, width)?;
    let size = inside::size_of(word);
    if size <= i {
        return Err(Refused {
            why: Refusal::Position,
            word,
        });
    }
    Ok(inside::moved(word, width, i, i + 1, width, size - 1))
}

// The slot, wherever it is in use, rests behind every other free one.
pub fn remove_slot(word: u64, width: usize, slot: usize) -> Result<u64, Refused>
    ensures { said_changed result ≡ changed width word (remove_slot slot) }
{
    judged(word, width)?;
    let size = inside::size_of(word);
    let at = inside::place(word, width, slot);
    if size <= at {
        return Err(Refused {
            why: Refusal::Unused,
            word,
        });
    }
    Ok(inside::moved(word, width, at, at + 1, size, size - 1))
}

// The first free slot, which is the one removed last, is put to use at position i: the opposite of a removal there.
pub fn insert_first_free(word: u64, width: usize, i: usize) -> Result<u64, Refused>
    ensures { said_changed result ≡ changed width word (insert_first_free i) }
{
    judged(word, width)?;
    let size = inside::size_of(word);
    if size < i {
        return Err(Refused {
            why: Refusal::Position,
            word,
        });
    }
    if width <= size {
        return Err(Refused {
            why: Refusal::Full,
            word,
        });
    }
    Ok(inside::moved(word, width, i, size, size + 1, size + 1))
}
