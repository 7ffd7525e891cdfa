// The answers of the calls on slot words, and the judgement that most begin with: what the crates above share, the questions, the places
// and the permuter.
#![tactic(auto)]

ghost use Rattle.std.specs.Prelude.{◌≡◌};
ghost use Rattle.slot_answers.specs.Words.{judged_back};

use nibbles::inside::judge;
use refusal::Refusal;

// A refused call: why, and the word as it was given.
#[derive(Clone, Copy)]
pub struct Refused {
    pub why: Refusal,
    pub word: u64,
}

// The word after an insertion, the slot handed out and how many rest.
#[derive(Clone, Copy)]
pub struct HandedOut {
    pub word: u64,
    pub slot: usize,
    pub resting: usize,
}

// Whether a word may be used at its width; refused, the word goes back as it was given.
pub fn judged(word: u64, width: usize) -> Result<(), Refused>
    ensures { result ≡ judged_back width word }
{
    judge(word, width).map_err(|why| Refused { why, word })
}
