// The bytes of a key that holds them: how many there are, where the suffix starts, the suffix, and all. The plain call is passed the slice
// and the numbers and judges them, so nothing is asked of a key here, and the refusals are those of the plain call.
#![tactic(auto)]

ghost use Rattle.std.specs.Prelude.{◌≡◌};
ghost use Rattle.key_layer.specs.Keys.{Len, SuffixStart};
ghost use Rattle.key_layer.specs.Said.{said_count};
ghost use Rattle.key.specs.Parts.{IsSuffix, IsData};
ghost use Rattle.keys_held.specs.Held.{answer_of};

use key::Part;
use key_layer::Refused;
use keys_held::Key;

// The length of the whole key.
pub fn len<'a>(k: Key<'a>) -> Result<usize, Refused>
    ensures { said_count result ≡ answer_of Len k.entry }
{
    keys_lengths::len(k.bytes, k.ikey, k.shift_count, k.suffix_start)
}

// Where the suffix starts, in the whole key.
pub fn suffix_start<'a>(k: Key<'a>) -> Result<usize, Refused>
    ensures { said_count result ≡ answer_of SuffixStart k.entry }
{
    key_questions::suffix_start(k.bytes, k.ikey, k.shift_count, k.suffix_start)
}

// The caller's own bytes from the suffix start on: an empty part where there is no suffix. Refused with 7, it is the empty part at the end.
pub fn suffix<'a>(k: Key<'a>) -> Part<'a>
    ensures { IsSuffix k.entry.bytes k.entry.ikey k.entry.shift_count k.entry.suffix_start result }
{
    key::suffix(k.bytes, k.ikey, k.shift_count, k.suffix_start)
}

// All of the caller's own bytes. Refused with 7, it is the empty part at the end.
pub fn full_data<'a>(k: Key<'a>) -> Part<'a>
    ensures { IsData k.entry.bytes k.entry.ikey k.entry.shift_count k.entry.suffix_start result }
{
    key::full_data(k.bytes, k.ikey, k.shift_count, k.suffix_start)
}
