//! Worked examples: the views of small standbys.
//!
//! Each function here has an empty body; its clauses hold by computing both sides.
ghost use Rattle.std.specs.Prelude.{◌≡◌, ◌∷◌, [], codes, Some, None};
ghost use Rattle.rl_base.specs.declared.which.Which.TheVariants.{Progress, Log, State, Skip, Events};
ghost use Rattle.view_lines.specs.Worked.{viewed, dictionary_alone, three_logs};

/// A standby whose redo has a dictionary and no commit, behind a run.
pub fn a_dictionary_is_applied()
    ensures progress { viewed (Some dictionary_alone) Progress
        ≡ codes "APPLIED_SCN 99" ∷ codes "RESTART_SCN 100" ∷ codes "MINING_SCN 100" ∷ codes "LATEST_SCN 199" ∷ [] }
    ensures log { viewed (Some dictionary_alone) Log ≡ codes "LOG 1 100 200 1" ∷ [] }
    ensures state { viewed (Some dictionary_alone) State
        ≡ codes "GUARD ALL" ∷ codes "COMMITS 0" ∷ codes "ROWS 0" ∷ codes "LAST DRAINED" ∷ [] }
    ensures events { viewed (Some dictionary_alone) Events
        ≡ codes "EVENT 1 CREATED 99" ∷ codes "EVENT 2 END 99 0 DRAINED" ∷ [] }
    ensures skip { viewed (Some dictionary_alone) Skip ≡ [] }
{}

/// A standby with three logs, of which two are missing between, with skip rules and without a checkpoint.
pub fn logs_are_missing()
    ensures progress { viewed (Some three_logs) Progress
        ≡ codes "APPLIED_SCN 111" ∷ codes "RESTART_SCN 99" ∷ codes "MINING_SCN 99" ∷ codes "LATEST_SCN 149" ∷ [] }
    ensures log { viewed (Some three_logs) Log
        ≡ codes "LOG 1 100 110 3" ∷ codes "LOG 2 110 120 2" ∷ codes "GAP 3 4" ∷ codes "LOG 5 140 150 2" ∷ [] }
    ensures state { viewed (Some three_logs) State
        ≡ codes "GUARD STANDBY" ∷ codes "COMMITS 2" ∷ codes "ROWS 2" ∷ codes "LAST DRAINED" ∷ [] }
    ensures skip { viewed (Some three_logs) Skip
        ≡ codes "SKIP TABLE HR.AUD% 0" ∷ codes "SKIP TRANSACTION 1.2.3 2" ∷ [] }
{}

/// Where no standby is created nothing is shown but the events.
pub fn no_standby_is_created()
    ensures progress { viewed None Progress
        ≡ codes "APPLIED_SCN 0" ∷ codes "RESTART_SCN 0" ∷ codes "MINING_SCN 0" ∷ codes "LATEST_SCN 0" ∷ [] }
    ensures log { viewed None Log ≡ [] }
    ensures skip { viewed None Skip ≡ [] }
{}
