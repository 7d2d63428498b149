//! That a keeper may go to another thread.
use crate::keeper::SqliteKeeper;

fn may_be_sent<T: Send>(_value: &T) {}

/// This is proved of the keeper's type here, and not first where it is sent.
pub fn keeper_may_be_sent(keeper: &SqliteKeeper<'_, HostRuntime>) {
    may_be_sent(keeper);
}
