// The two ways of the search: what is answered where there are not fifteen entries, and fifteen lent entries by value.
ghost use Rattle.std.specs.Prelude.{◌≡◌, length};
ghost use Rattle.leaf.specs.Search.{said_searched};
ghost use Rattle.lent_leaf.specs.Search.{other_count_said};

use crate::{Entry, Outcome, Refused};
use refusal::Refusal;

// What is answered where the number of entries is wrong: of the leaf only the word is judged.
pub fn unlent(
    word: u64,
    key: &[u8],
    ikey: u64,
    shift_count: usize,
    suffix_start: usize,
) -> Result<Outcome, Refused>
    ensures { said_searched result ≡ other_count_said word key.now ikey shift_count suffix_start }
{
    if !leaf::inside::is_valid(word) {
        return leaf::inside::refuse(Refusal::Node, word, ikey, shift_count, suffix_start);
    }
    leaf::inside::not_lent(word, key, ikey, shift_count, suffix_start)
}

// Fifteen lent entries by value, in the same order.
pub fn fifteen(entries: &[Entry]) -> [Entry; 15]
    requires { length entries.now ≡ 15 }
    ensures { result ≡ entries.now }
{
    <[Entry; 15]>::try_from(entries).unwrap()
}
