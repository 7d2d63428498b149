//! Worked examples: scripts from their bytes and those of the logs to the printed lines.
//!
//! Each function here has an empty body; its clauses hold by computing both sides. The logs are those of `specs/Worked.antt`.
ghost use Rattle.std.specs.Prelude.{◌≡◌, [], ◌∷◌, ◌++◌, codes};
ghost use Rattle.rl_base.specs.declared.status.Status.TheVariants as statuses;
ghost use Rattle.redo_spec.specs.Worked.{undone_update, locked_key, cut_short_log, long_text_log, log_1, log_2, logs_3_and_4, log_5};
ghost use Rattle.script_spec.specs.Worked.{told, emp_log, prints, moved_key, other_row, audited, odd_logs};

/// A redo of the dictionary alone: four views of it.
pub fn a_dictionary_is_drained()
    ensures views { prints (emp_log []) (codes "CREATE 9 1" ∷ codes "SESSION S" ∷ codes "REPLAY 1 drain" ∷ codes "VIEW PROGRESS"
        ∷ codes "VIEW LOG" ∷ codes "VIEW STATE" ∷ codes "VIEW EVENTS" ∷ [])
        ≡ record {
          lines = codes "CREATED 99" ∷ codes "OK" ∷ codes "END 99 0 DRAINED" ∷ codes "APPLIED_SCN 99"
              ∷ codes "RESTART_SCN 100" ∷ codes "MINING_SCN 100" ∷ codes "LATEST_SCN 199" ∷ codes "LOG 1 100 200 1"
              ∷ codes "GUARD ALL" ∷ codes "COMMITS 0" ∷ codes "ROWS 0" ∷ codes "LAST DRAINED" ∷ codes "EVENT 1 CREATED 99"
              ∷ codes "EVENT 2 END 99 0 DRAINED" ∷ [];
          status = statuses.Done;
        } }
{}

/// An update that was undone leaves the insert; CHECK counts the row again.
pub fn an_undone_update_leaves_the_insert()
    ensures answer { prints (emp_log undone_update) (codes "CREATE 9 1" ∷ codes "SESSION S" ∷ codes "REPLAY 1 drain"
        ∷ codes "QUERY S HR.EMP ALL" ∷ codes "CHECK" ∷ [])
        ≡ record {
          lines = codes "CREATED 99" ∷ codes "OK" ∷ codes "END 104 1 DRAINED" ∷ codes "ANSWER S 104 1"
              ∷ codes "ROW 1 'Ann' NULL" ∷ codes "CHECK 1 104 1" ∷ [];
          status = statuses.Done;
        } }
{}

/// A key that another open transaction holds.
pub fn a_locked_key_ends_a_run()
    ensures lock { prints (emp_log locked_key) (codes "CREATE 9 1" ∷ codes "REPLAY 1 drain" ∷ [])
        ≡ record {
          lines = codes "CREATED 99" ∷ codes "END 99 0 MALFORMED 3 LOCK HR.EMP 0 (1) 1.1.1" ∷ [];
          status = statuses.Malformed;
        } }
{}

/// A row moves away, and another one comes to its key.
pub fn a_row_moves_to_another_key()
    ensures moved { prints (emp_log moved_key) (codes "CREATE 9 1" ∷ codes "SESSION S" ∷ codes "ROW HR.EMP 1 'A' NULL"
        ∷ codes "REPLAY 2 drain" ∷ codes "QUERY S HR.EMP ALL" ∷ [])
        ≡ record {
          lines = codes "CREATED 99" ∷ codes "OK" ∷ codes "OK" ∷ codes "END 104 2 DRAINED" ∷ codes "ANSWER S 104 2"
              ∷ codes "ROW 1 'N' NULL" ∷ codes "ROW 5 'A' NULL" ∷ [];
          status = statuses.Done;
        } }
{}

/// A run ends at a conflict, and goes on behind it where the transaction is skipped.
pub fn a_skipped_transaction_is_passed_over()
    ensures skipped { prints (emp_log other_row) (codes "CREATE 9 1" ∷ codes "ROW HR.EMP 1 'Z' NULL" ∷ codes "REPLAY 1 drain"
        ∷ codes "SKIP TRANSACTION 1.1.1" ∷ codes "REPLAY 1 drain" ∷ [])
        ≡ record {
          lines = codes "CREATED 99" ∷ codes "OK" ∷ codes "END 99 0 MISMATCH 102 2.2 HR.EMP DIFFERS NAME 'A' 'Z'"
              ∷ codes "OK" ∷ codes "END 102 1 DRAINED" ∷ [];
          status = statuses.Done;
        } }
{}

/// A run ends at a gap, and a later one goes on where the logs are registered.
pub fn a_gap_ends_a_run()
    ensures gap { prints (told (log_1 ∷ log_2 ∷ logs_3_and_4 ++ log_5 ∷ [])) (codes "CREATE 9 1" ∷ codes "REGISTER 2"
        ∷ codes "REGISTER 5" ∷ codes "REPLAY 2 drain" ∷ codes "REGISTER 3" ∷ codes "REGISTER 4" ∷ codes "REPLAY 2 drain" ∷ [])
        ≡ record {
          lines = codes "CREATED 99" ∷ codes "OK" ∷ codes "OK" ∷ codes "END 111 2 GAP 3 4" ∷ codes "OK" ∷ codes "OK"
              ∷ codes "END 141 4 DRAINED" ∷ [];
          status = statuses.Done;
        } }
{}

/// The last record is cut short.
pub fn a_cut_off_record_ends_a_run()
    ensures truncated { prints (told ((1, cut_short_log) ∷ [])) (codes "CREATE 9 1" ∷ codes "REPLAY 1 drain" ∷ [])
        ≡ record { lines = codes "CREATED 99" ∷ codes "END 102 1 MALFORMED 5 TRUNCATED" ∷ []; status = statuses.Malformed } }
{}

/// Users write a table that is not maintained, at the level STANDBY alone.
pub fn users_write_skipped_tables()
    ensures guarded { prints audited (codes "CREATE 9 1" ∷ codes "SESSION S" ∷ codes "SKIP TABLE HR.AUD%"
        ∷ codes "PUT S HR.AUDIT 1 'x'" ∷ codes "GUARD STANDBY" ∷ codes "PUT S HR.AUDIT 1 'x'" ∷ codes "PUT S HR.EMP 1 'A' NULL"
        ∷ codes "REPLAY 1 drain" ∷ codes "QUERY S HR.AUDIT ALL" ∷ codes "VIEW SKIP" ∷ [])
        ≡ record {
          lines = codes "CREATED 99" ∷ codes "OK" ∷ codes "OK" ∷ codes "REFUSED GUARDED ALL HR.AUDIT" ∷ codes "OK"
              ∷ codes "OK" ∷ codes "REFUSED GUARDED STANDBY HR.EMP" ∷ codes "END 102 1 DRAINED" ∷ codes "ANSWER S 102 1"
              ∷ codes "ROW 1 'x'" ∷ codes "SKIP TABLE HR.AUD% 0" ∷ [];
          status = statuses.Done;
        } }
{}

/// A text of 500 bytes is applied; one of 501 is refused at its length.
pub fn a_text_has_500_bytes()
    ensures whole { prints (told ((1, long_text_log 500) ∷ [])) (codes "CREATE 9 1" ∷ codes "REPLAY 1 drain" ∷ [])
        ≡ record { lines = codes "CREATED 99" ∷ codes "END 102 1 DRAINED" ∷ []; status = statuses.Done } }
    ensures longer { prints (told ((1, long_text_log 501) ∷ [])) (codes "CREATE 9 1" ∷ codes "REPLAY 1 drain" ∷ [])
        ≡ record { lines = codes "CREATED 99" ∷ codes "END 99 0 MALFORMED 2 SIZE 50" ∷ []; status = statuses.Malformed } }
{}

/// Logs that can't be registered.
pub fn odd_logs_are_refused()
    ensures refused { prints odd_logs (codes "CREATE 9 1" ∷ codes "REGISTER 1" ∷ codes "REGISTER 2" ∷ codes "REGISTER 3"
        ∷ codes "REGISTER 4" ∷ codes "REGISTER 7" ∷ [])
        ≡ record {
          lines = codes "CREATED 99" ∷ codes "REFUSED TWICE" ∷ codes "REFUSED BADHEADER SEQUENCE"
              ∷ codes "REFUSED WRONGDB" ∷ codes "REFUSED BADHEADER SHORT" ∷ codes "REFUSED NOLOG" ∷ [];
          status = statuses.Done;
        } }
    ensures before { prints odd_logs (codes "CREATE 9 5" ∷ codes "REGISTER 4" ∷ [])
        ≡ record { lines = codes "CREATED 99" ∷ codes "REFUSED BEFORE" ∷ []; status = statuses.Done } }
{}

/// Lines that are no statement, a run with threads, and an event that is not built.
pub fn a_script_is_refused_as_a_whole()
    ensures grammar { prints (emp_log []) (codes "CREATE 9 1" ∷ codes "DROP" ∷ [])
        ≡ record { lines = []; status = statuses.BadStatement 2 } }
    ensures threads { prints (emp_log []) (codes "CREATE 9 1" ∷ codes "APPLY 1 1" ∷ codes "REPLAY 1 cut" ∷ [])
        ≡ record { lines = []; status = statuses.NeedsThreads 2 } }
    ensures events { prints (emp_log []) (codes "CREATE 9 1" ∷ codes "REPLAY 1 cut drain" ∷ [])
        ≡ record { lines = []; status = statuses.NotBuilt } }
{}
