// Wide banks whose positions change places. The width goes beside the bank, which goes in by value and comes back in the answer. Every
// call judges its width and its bank, and refuses by number.
#![tactic(auto)]

ghost use Rattle.std.specs.Prelude.{◌≡◌};
ghost use Rattle.bank.specs.Calls.{exchange, rotate};
ghost use Rattle.wide_answers.specs.Wides.{changed};
ghost use Rattle.wide_answers.specs.Answers.{said_changed};

use refusal::Refusal;
use wide_answers::{Refused, judged};
use wide_bytes::inside::byte;
use wide_moves::inside;

// Two positions change places.
pub fn exchange(bank: [u8; 25], width: usize, i: usize, j: usize) -> Result<[u8; 25], Refused>
    ensures { said_changed result ≡ changed width bank (exchange i j) }
{
    judged(bank, width)?;
    if width <= i || width <= j {
        return Err(Refused {
            why: Refusal::Position,
            bank,
        });
    }
    Ok(inside::swap(bank, i, j))
}

// Positions i to width-1 become old j to width-1, then old i to j-1.
pub fn rotate(bank: [u8; 25], width: usize, i: usize, j: usize) -> Result<[u8; 25], Refused>
    ensures { said_changed result ≡ changed width bank (rotate i j) }
{
    judged(bank, width)?;
    if j < i || width < j {
        return Err(Refused {
            why: Refusal::Position,
            bank,
        });
    }
    Ok(inside::moved(bank, i, j, width, byte(bank, 0)))
}
