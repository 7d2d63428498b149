//! What the pairs so far leave to the next one.
use crate::balances::Balances;

/// The state of the generator, and the balances of the odd and of the even IDs.
#[derive(Drop)]
pub struct Left {
    pub x: u64,
    pub odd: Balances,
    pub even: Balances,
}
