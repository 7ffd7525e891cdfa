// Keys made: the caller's bytes, and three numbers (ikey, shift count, suffix start). The judgement of a key is passed on from below.
#![tactic(auto)]

ghost use Rattle.std.specs.Prelude.{◌≡◌};
ghost use Rattle.key_layer.specs.Keys.{new_said};
ghost use Rattle.key_layer.specs.Said.{said_made};

use ikey::LONGEST;
use key_layer::{Layer, inside};
pub use keys_fit::judge;
use refusal::Refusal;

// The key of these bytes, at layer 0. A key made of a suffix is made the same way.
pub fn new(bytes: &[u8]) -> Result<Layer, Refusal>
    ensures { said_made result ≡ new_said bytes.now }
{
    if LONGEST < bytes.len() {
        return Err(Refusal::Key);
    }
    Ok(inside::layer(bytes, 0))
}
