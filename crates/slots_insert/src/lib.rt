// Insertion into a slot word. The width goes beside the word, which goes in by value and comes back in the answer. The call judges its
// width and its word, and refuses by number.
#![tactic(auto)]

ghost use Rattle.std.specs.Prelude.{◌≡◌, [], ◌∷◌};
ghost use Rattle.refusal.specs.Answer.{refused};
ghost use Rattle.bank.specs.Calls.{insert_from_back};
ghost use Rattle.slot_answers.specs.Words.{changed, refused_by};
ghost use Rattle.slot_answers.specs.Answers.{said_inserted};

use nibbles::inside::valid;
use refusal::Refusal;
use slot_answers::{HandedOut, Refused, judged};
use turns::inside;

// The slot at the back is put to use at position i; how many still rest is told beside it. Its own rules are tried first and the word
// last, so that an accepted call, the usual one, judges once and does nothing for a refusal; which refusal has the lowest number is
// settled behind.
pub fn insert_from_back(word: u64, width: usize, i: usize) -> Result<HandedOut, Refused>
    ensures { said_inserted result ≡ changed width word (insert_from_back i) }
{
    let size = inside::size_of(word);
    if size < i {
        return Err(first_refusal(word, width, Refusal::Position));
    }
    if width <= size {
        return Err(first_refusal(word, width, Refusal::Full));
    }
    if 15 < width {
        return Err(Refused {
            why: Refusal::Width,
            word,
        });
    }
    if !valid(word, width) {
        return Err(Refused {
            why: Refusal::Word,
            word,
        });
    }
    Ok(HandedOut {
        word: inside::inserted(word, width, i),
        slot: inside::nibble(word, width),
        resting: width - (size + 1),
    })
}

// Of a call that breaks a rule of its own: the refusal of its width or its word goes before.
fn first_refusal(word: u64, width: usize, own: Refusal) -> Refused
    ensures { refused result.why (result.word ∷ []) ≡ refused_by width word own }
{
    judged(word, width)
        .err()
        .unwrap_or(Refused { why: own, word })
}
