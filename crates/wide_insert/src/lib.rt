// Insertion into a wide bank. The width goes beside the bank, which goes in by value and comes back in the answer. The call judges its
// width and its bank, and refuses by number.
#![tactic(auto)]

ghost use Rattle.std.specs.Prelude.{◌≡◌};
ghost use Rattle.bank.specs.Calls.{insert_from_back};
ghost use Rattle.wide_answers.specs.Wides.{changed};
ghost use Rattle.wide_answers.specs.Answers.{said_inserted};

use refusal::Refusal;
use wide_answers::{HandedOut, Refused, judged};
use wide_bytes::inside::byte;
use wide_moves::inside;

// The slot at the back is put to use at position i; how many still rest is told beside it.
pub fn insert_from_back(bank: [u8; 25], width: usize, i: usize) -> Result<HandedOut, Refused>
    ensures { said_inserted result ≡ changed width bank (insert_from_back i) }
{
    judged(bank, width)?;
    let size = byte(bank, 0);
    if size < i {
        return Err(Refused {
            why: Refusal::Position,
            bank,
        });
    }
    if width <= size {
        return Err(Refused {
            why: Refusal::Full,
            bank,
        });
    }
    let more = size + 1;
    Ok(HandedOut {
        bank: inside::moved(bank, i, width - 1, width, more),
        slot: byte(bank, width),
        resting: width - more,
    })
}
