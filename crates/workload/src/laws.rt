//! Laws of the workload. Each function here has an empty body; its clauses are the law.
ghost use Rattle.std.specs.Prelude.{◌≡◌, ◌<◌, ◌^◌, ℕ, length};
ghost use Rattle.std.specs.List.{AllByRecursion};
ghost use Rattle.redo_spec.specs.Log.{IsLog};
ghost use Rattle.workload.specs.Workload.{workload_logs, log_count, AreChained};
ghost use Rattle.workload.specs.Ends.{ended_in_logs, counted_up};

/// Each log of a workload has a spelling: each number fits its field, also the greatest balance, and no record is too long.
pub fn a_workload_is_spelled()
    ensures spelled { (seed txns : ℕ) → txns < 2 ^ 32 → AllByRecursion IsLog (workload_logs seed txns) }
{}

/// The logs of a workload have the sequences from 1 on without a gap, and each begins where the one before it ends.
pub fn a_workload_has_no_gap()
    ensures counted { (seed txns : ℕ) → length (workload_logs seed txns) ≡ log_count txns }
    ensures chained { (seed txns : ℕ) → AreChained 1 1 (workload_logs seed txns) }
{}

/// Each transaction of a workload ends once, by a COMMIT or a ROLLBACK, in the order of their numbers from 1 on.
pub fn a_workload_ends_each_transaction()
    ensures ended { (seed txns : ℕ) → ended_in_logs (workload_logs seed txns) ≡ counted_up 1 txns }
{}
