// An answer of saving or of reading an image taken apart for C: its number to return, what it tells into the lent numbers.
#![tactic(auto)]

ghost use Rattle.std.specs.Prelude.{[], ◌∷◌};
ghost use Rattle.card_save.specs.Answers.{said_saved};
ghost use Rattle.card_load.specs.Load.{said_loaded};
ghost use Rattle.crossing.specs.Crossing.{Crossed};
ghost use Rattle.crossing.specs.Told.{CrossedBoth};

use card_load::Loaded;
use card_save::Saved;

// Writes the number of blocks and returns 0; refused, writes nothing and returns the number.
pub fn give_saved(answer: Saved, blocks: &mut usize) -> u64
    ensures { Crossed (said_saved answer) result (blocks.old ∷ []) (blocks.new ∷ []) }
{
    match answer {
        Saved::Blocks(n) => {
            *blocks = n;
            0
        }
        Saved::Short => 18,
        Saved::Refused(why) => refusal::number(why),
    }
}

// Writes the number of entries and returns 0. Refused, returns the number: with 14 the number of nodes lacking is written into the other
// lent number, with 16 the block, with 17 the place.
pub fn give_loaded(answer: Loaded, entries: &mut u64, told: &mut u64) -> u64
    ensures { CrossedBoth (said_loaded answer) result (entries.old ∷ []) (entries.new ∷ [])
        (told.old ∷ []) (told.new ∷ []) }
{
    match answer {
        Loaded::Entries(n) => {
            *entries = n as u64;
            0
        }
        Loaded::TooFewNodes(lacking) => {
            *told = lacking;
            14
        }
        Loaded::Length => 15,
        Loaded::Check(block) => {
            *told = block as u64;
            16
        }
        Loaded::Stream(place) => {
            *told = place as u64;
            17
        }
        Loaded::Refused(why) => refusal::number(why),
    }
}
