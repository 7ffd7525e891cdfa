// What a wide bank is asked. The width goes beside the bank, which goes in by value. Every call judges its width and its bank, and refuses
// by number.
#![tactic(auto)]

ghost use Rattle.std.specs.Prelude.{◌≡◌};
ghost use Rattle.bank.specs.Calls.{size, get, back};
ghost use Rattle.wide_answers.specs.Wides.{asked};
ghost use Rattle.wide_answers.specs.Answers.{said_told};

use refusal::Refusal;
use wide_bytes::inside::{byte, judge};

// How many slots are in use.
pub fn size(bank: [u8; 25], width: usize) -> Result<usize, Refusal>
    ensures { said_told bank result ≡ asked width bank size }
{
    judge(bank, width)?;
    Ok(byte(bank, 0))
}

// The slot at a position, in use or free.
pub fn get(bank: [u8; 25], width: usize, i: usize) -> Result<usize, Refusal>
    ensures { said_told bank result ≡ asked width bank (get i) }
{
    judge(bank, width)?;
    if width <= i {
        return Err(Refusal::Position);
    }
    Ok(byte(bank, i + 1))
}

// The slot at the last position.
pub fn back(bank: [u8; 25], width: usize) -> Result<usize, Refusal>
    ensures { said_told bank result ≡ asked width bank back }
{
    judge(bank, width)?;
    Ok(byte(bank, width))
}
