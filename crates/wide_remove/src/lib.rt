// Removal from a wide bank, and its opposite. The width goes beside the bank, which goes in by value and comes back in the answer. Every
// call judges its width and its bank, and refuses by number.
#![tactic(auto)]

ghost use Rattle.std.specs.Prelude.{◌≡◌};
ghost use Rattle.bank.specs.Calls.{insert_first_free, remove, remove_to_back, remove_slot};
ghost use Rattle.wide_answers.specs.Wides.{changed};
ghost use Rattle.wide_answers.specs.Answers.{said_changed};

use refusal::Refusal;
use wide_answers::{Refused, judged};
use wide_bytes::inside::byte;
use wide_moves::inside;

// The slot at position i rests behind every other free one.
pub fn remove(bank: [u8; 25], width: usize, i: usize) -> Result<[u8; 25], Refused>
    ensures { said_changed result ≡ changed width bank (remove i) }
{
    judged(bank, width)?;
    let size = byte(bank, 0);
    if size <= i {
        return Err(Refused {
            why: Refusal::Position,
            bank,
        });
    }
    Ok(inside::moved(bank, i, i + 1, size, size - 1))
}

// The slot at position i goes to the back, where the next insertion finds it: the opposite of an insertion.
pub fn remove_to_back(bank: [u8; 25], width: usize, i: usize) -> Result<[u8; 25], Refused>
    ensures { said_changed result ≡ changed width bank (remove_to_back i) }
{
    judged(bank, width)?;
    let size = byte(bank, 0);
    if size <= i {
        return Err(Refused {
            why: Refusal::Position,
            bank,
        });
    }
    Ok(inside::moved(bank, i, i + 1, width, size - 1))
}

// The slot, wherever it is in use, rests behind every other free one.
pub fn remove_slot(bank: [u8; 25], width: usize, slot: usize) -> Result<[u8; 25], Refused>
    ensures { said_changed result ≡ changed width bank (remove_slot slot) }
{
    judged(bank, width)?;
    let size = byte(bank, 0);
    let at = inside::place(bank, width, slot);
    if size <= at {
        return Err(Refused {
            why: Refusal::Unused,
            bank,
        });
    }
    Ok(inside::moved(bank, at, at + 1, size, size - 1))
}

// The first free slot, which is the one removed last, is put to use at position i: the opposite of a removal there.
pub fn insert_first_free(bank: [u8; 25], width: usize, i: usize) -> Result<[u8; 25], Refused>
    ensures { said_changed result ≡ changed width bank (insert_first_free i) }
{
    judged(bank, width)?;
    let size = byte(bank, 0);
    if size < i {
        return Err(Refused {
            why: Refusal::Position,
            bank,
        });
    }
    if width <= size {
        return Err(Refused {
            why: Refusal::Full,
            bank,
        });
    }
    Ok(inside::moved(bank, i, size, size + 1, size + 1))
}
