// The answers of the calls on wide banks, and the judgement that those that hand a bank back begin with: what the crates above share.
#![tactic(auto)]

ghost use Rattle.std.specs.Prelude.{◌≡◌};
ghost use Rattle.wide_answers.specs.Wides.{judged_back};

use refusal::Refusal;
use wide_bytes::inside::judge;

// A refused call: why, and the bank as it was given, or 25 zeros where none was.
#[derive(Clone, Copy)]
pub struct Refused {
    pub why: Refusal,
    pub bank: [u8; 25],
}

// The bank after an insertion, the slot handed out and how many rest.
#[derive(Clone, Copy)]
pub struct HandedOut {
    pub bank: [u8; 25],
    pub slot: usize,
    pub resting: usize,
}

// Whether a bank may be used at its width; refused, the bank goes back as it was given.
pub fn judged(bank: [u8; 25], width: usize) -> Result<(), Refused>
    ensures { result ≡ judged_back width bank }
{
    judge(bank, width).map_err(|why| Refused { why, bank })
}
