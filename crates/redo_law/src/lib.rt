//! What may follow in the redo: the admission of its records, in order, and the keys that a change touches.
#![tactic(auto)]

mod conflicts;
mod copies;
mod fault;
mod hold;
mod law;
mod locks;
mod open_transactions;
mod start;
mod state;
mod survivors;
mod touching;

pub use fault::AdmitFault;
pub use law::Law;
pub use start::LawStart;
pub use touching::touch;
