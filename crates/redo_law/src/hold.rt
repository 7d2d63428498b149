//! A key's hold: its transaction, and the change that took it.
use rl_value::Xid;

/// Who holds a key.
#[derive(Clone, Copy, Debug, PartialEq, Eq)]
pub struct Hold {
    /// The transaction.
    pub holder: Xid,
    /// Its first surviving change that touches the key, counted from 0.
    pub change: usize,
}
