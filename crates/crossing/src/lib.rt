// An answer taken apart for C: its number to return, its values into the lent numbers.
#![tactic(auto)]

ghost use Rattle.std.specs.Prelude.{[], ◌∷◌};
ghost use Rattle.permuter.specs.Answers.{said_changed, said_inserted, said_told, said_made};
ghost use Rattle.crossing.specs.Crossing.{Crossed};

use permuter::{HandedOut, Refused};
use refusal::Refusal;

// Writes a changed word and returns 0; refused, writes nothing and returns the number.
pub fn give_changed(answer: Result<u64, Refused>, word: &mut u64) -> u64
    ensures { Crossed (said_changed answer) result (word.old ∷ []) (word.new ∷ []) }
{
    match answer {
        Ok(new) => {
            *word = new;
            0
        }
        Err(unchanged) => refusal::number(unchanged.why),
    }
}

// Writes the word after an insertion, the slot handed out and how many rest, and returns 0; refused, writes nothing and returns the
// number.
pub fn give_inserted(
    answer: Result<HandedOut, Refused>,
    word: &mut u64,
    slot: &mut usize,
    resting: &mut usize,
) -> u64
    ensures { Crossed (said_inserted answer) result
        (word.old ∷ slot.old ∷ resting.old ∷ [])
        (word.new ∷ slot.new ∷ resting.new ∷ []) }
{
    match answer {
        Ok(out) => {
            *word = out.word;
            *slot = out.slot;
            *resting = out.resting;
            0
        }
        Err(refused) => refusal::number(refused.why),
    }
}

// Writes a number told of a word and returns 0; refused, writes nothing and returns the number.
pub fn give_told(answer: Result<usize, Refused>, told: &mut usize) -> u64
    ensures { Crossed (said_told answer) result (told.old ∷ []) (told.new ∷ []) }
{
    match answer {
        Ok(number) => {
            *told = number;
            0
        }
        Err(untold) => refusal::number(untold.why),
    }
}

// Writes a word that was made and returns 0; refused, writes nothing and returns the number.
pub fn give_made(answer: Result<u64, Refusal>, word: &mut u64) -> u64
    ensures { Crossed (said_made answer) result (word.old ∷ []) (word.new ∷ []) }
{
    match answer {
        Ok(new) => {
            *word = new;
            0
        }
        Err(why) => refusal::number(why),
    }
}
