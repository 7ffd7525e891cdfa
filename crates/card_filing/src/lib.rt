// The entries of a stream put into the index, each once its last byte has come.
#![tactic(auto)]

pub mod inside;

use card_fields::Fields;
use index_put::PutRefused;

// Where the machine stands, and what the puts so far have come to.
#[derive(Clone, Copy)]
pub struct Filing {
    pub fields: Fields,
    pub added: Result<usize, PutRefused>,
}
