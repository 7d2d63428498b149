//! The guard: which tables the users of the standby may write, after the levels of a logical standby's database guard.
ghost use Rattle.std.specs.Prelude.{◌≡◌, ◌↔◌, IsTrue, false};
ghost use Rattle.skip_guard.specs.declared.guard.Level.TheVariants.{Standby};

/// How far users are kept from writing.
#[derive(Clone, Copy, Debug, PartialEq, Eq)]
pub enum Level {
    /// They write no table.
    All,
    /// They write the tables that are not maintained.
    Standby,
}

/// Whether users may write a table that is maintained, or is not.
pub fn allowed(level: Level, maintained: bool) -> bool
    ensures exact { IsTrue result ↔ ((level ≡ Standby) × (maintained ≡ false)) }
{
    match level {
        Level::All => false,
        Level::Standby => !maintained,
    }
}
