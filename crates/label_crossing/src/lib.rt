// An answer of a reader of labels taken apart for C: its number to return, what the label says into the lent numbers, or its edition byte.
#![tactic(auto, using(crate::proofs::Crosses::crossings))]

ghost use Rattle.std.specs.Prelude.{[], ◌∷◌};
ghost use Rattle.label_read.specs.Answers.{said_label, said_first_label};
ghost use Rattle.crossing.specs.Told.{CrossedBoth};

use label_read::{FirstLabel, Label, Unknown};

// Writes the edition and the fields of a label and returns 0. Where it is none, returns 19, and the edition byte is written into the number
// that is lent for it.
pub fn give_label(
    answer: Result<Label, Unknown>,
    edition: &mut u8,
    station: &mut u16,
    burst: &mut u32,
    frame: &mut u16,
    told: &mut u64,
) -> u64
    ensures { CrossedBoth (said_label answer) result
        (edition.old ∷ station.old ∷ burst.old ∷ frame.old ∷ [])
        (edition.new ∷ station.new ∷ burst.new ∷ frame.new ∷ [])
        (told.old ∷ []) (told.new ∷ []) }
{
    match answer {
        Ok(
            Label::First {
                station: s,
                burst: b,
                frame: f,
            },
        ) => {
            *edition = 1;
            *station = s;
            *burst = b;
            *frame = u16::from(f);
            0
        }
        Ok(
            Label::Second {
                station: s,
                burst: b,
                frame: f,
            },
        ) => {
            *edition = 2;
            *station = s;
            *burst = b;
            *frame = f;
            0
        }
        Err(unknown) => {
            *told = u64::from(unknown.edition);
            19
        }
    }
}

// Writes the fields of a label of edition 1 and returns 0. Where it is none, returns 19, and the edition byte is written into the number
// that is lent for it.
pub fn give_first_label(
    answer: Result<FirstLabel, Unknown>,
    station: &mut u16,
    burst: &mut u32,
    frame: &mut u8,
    told: &mut u64,
) -> u64
    ensures { CrossedBoth (said_first_label answer) result
        (station.old ∷ burst.old ∷ frame.old ∷ [])
        (station.new ∷ burst.new ∷ frame.new ∷ [])
        (told.old ∷ []) (told.new ∷ []) }
{
    match answer {
        Ok(label) => {
            *station = label.station;
            *burst = label.burst;
            *frame = label.frame;
            0
        }
        Err(unknown) => {
            *told = u64::from(unknown.edition);
            19
        }
    }
}
