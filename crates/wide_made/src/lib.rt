// Wide banks made, and taken in from outside. The width goes beside the bank. Every call judges its width, and its bank if it has one, and
// refuses by number.
#![tactic(auto)]

ghost use Rattle.std.specs.Prelude.{◌≡◌};
ghost use Rattle.bank.specs.Calls.{from_value};
ghost use Rattle.wide_answers.specs.Wides.{changed, made_sorted, made_empty};
ghost use Rattle.wide_answers.specs.Answers.{said_changed};

use refusal::Refusal;
use wide_answers::{Refused, judged};
use wide_moves::inside;

// The bank with no slot in use: slot 0 at the back goes out first.
pub fn empty(width: usize) -> Result<[u8; 25], Refused>
    ensures { said_changed result ≡ made_empty width }
{
    make_sorted(width, 0)
}

// The bank with slots 0 to n-1 in use, in order.
pub fn make_sorted(width: usize, n: usize) -> Result<[u8; 25], Refused>
    ensures { said_changed result ≡ made_sorted width n }
{
    let bank = [0u8; 25];
    if width < 16 || 24 < width {
        return Err(Refused {
            why: Refusal::Width,
            bank,
        });
    }
    if width < n {
        return Err(Refused {
            why: Refusal::Position,
            bank,
        });
    }
    Ok(inside::sorted(width, n))
}

// A bank from outside, taken in as it is where it is valid at this width.
pub fn from_bytes(bank: [u8; 25], width: usize) -> Result<[u8; 25], Refused>
    ensures { said_changed result ≡ changed width bank from_value }
{
    judged(bank, width)?;
    Ok(bank)
}
