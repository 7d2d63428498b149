//! More worked examples: folds over rows, runs behind a mark, registered logs, the most open changes, pairs of causes of which
//! the first counts, work ahead of a commit, and verdicts that are alike.
//!
//! Each function here has an empty body; its clauses hold by computing both sides. The logs are those of `specs/Examples.antt`,
//! and of `specs/Worked.antt` of `redo_spec`.
ghost use Rattle.std.specs.Prelude.{◌≡◌, [], ◌∷◌, length, take, drop, slice_set, codes, Some, None, Ok, Err, IsTrue, false, ◌^◌, ◌-◌, ◌+◌};
ghost use Rattle.rl_value.specs.declared.cause.Cause.TheVariants.{Cut};
ghost use Rattle.rl_value.specs.declared.cause.CutFault.TheVariants.{Truncated};
ghost use Rattle.rl_value.specs.declared.cause.LawFault.TheVariants.{OpenLimit};
ghost use Rattle.rl_value.specs.declared.miss.Miss.TheVariants.{Absent, Taken};
ghost use Rattle.rl_value.specs.declared.value.Value.TheVariants.{Null, Text};
ghost use Rattle.rl_value.specs.declared.verdict.Stop.TheVariants.{Drained, Gap, Malformed};
ghost use Rattle.rl_value.specs.declared.verdict.Verdict.TheVariants.{RowLimit};
ghost use Rattle.redo_vec.specs.declared.vector.Vector.TheVariants.{Change as OfChange, Commit, DictEnd, Table};
ghost use Rattle.redo_spec.specs.Alike.{AreAlikeVerdicts};
ghost use Rattle.redo_spec.specs.History.{commit_count};
ghost use Rattle.redo_spec.specs.Law.{count_fault};
ghost use Rattle.redo_spec.specs.Fold.{fold_of_redo};
ghost use Rattle.redo_spec.specs.Lines.{words, verdict_text, fold_lines};
ghost use Rattle.redo_spec.specs.Mark.{MarkFits, resumed};
ghost use Rattle.redo_spec.specs.Redo.{redo_from};
ghost use Rattle.redo_spec.specs.Skips.{Transaction};
ghost use Rattle.redo_spec.specs.Worked.{rec, one_of, head_of, start, commit, row, n, update, delete, emp, emp_entries, emp_fold, emp_end, last_line, dictionary_end, text_keyed, freed_value, moved_row, xid_used_again, folded_under, fold_bytes, first_bytes, cut_short_log, side_by_side, log_at, log_1, log_2, log_5, registered_end, paired_end, half_moved, half_moved_logged};
ghost use Rattle.redo_worked.specs.Examples.{folded_over, row_one, rolled_back_behind, rolled_back_from, two_logs_at, emp_key, removed_2, renamed_1, work_behind, missed_with};

/// A fold over rows that are there: an update finds them as they are, and a skipped one does not look.
pub fn rows_of_a_base_fold()
    ensures differs { last_line (folded_over (row_one (Text (codes "Z")) Null) []
        (rec 101 (start 1 ∷ update 1 ((0, n 1) ∷ (1, Text (codes "A")) ∷ []) ((1, Text (codes "B")) ∷ []) ∷ []) ∷ commit 1 ∷ []))
        ≡ codes "END 99 0 MISMATCH 102 2.2 HR.EMP DIFFERS NAME 'A' 'Z'" }
    ensures skipped { last_line (folded_over (row_one (Text (codes "Z")) Null)
        (record { rule = Transaction (one_of 1); from = 0 } ∷ [])
        (rec 101 (start 1 ∷ update 1 ((0, n 1) ∷ (1, Text (codes "A")) ∷ []) ((1, Text (codes "B")) ∷ []) ∷ []) ∷ commit 1 ∷ []))
        ≡ codes "END 102 1 DRAINED" }
    ensures freed { folded_over (row_one (Text (codes "A")) (Text (codes "x@a"))) [] (drop 2 freed_value)
        ≡ codes "APPLIED_SCN 106" ∷ codes "TABLE HR.EMP 1" ∷ codes "ROW 2 'B' 'x@a'" ∷ codes "END 106 2 DRAINED" ∷ [] }
    ensures moved { folded_over (row_one (Text (codes "A")) Null) [] (drop 2 moved_row)
        ≡ codes "APPLIED_SCN 106" ∷ codes "TABLE HR.EMP 2" ∷ codes "ROW 1 'N' NULL" ∷ codes "ROW 5 'A' NULL" ∷
        codes "END 106 2 DRAINED" ∷ [] }
{}

/// Behind a mark, changes, an UNDO and a ROLLBACK of a transaction whose START was not read are passed over. Commits before the
/// mark are counted.
pub fn rolled_back_transactions_are_passed_over()
    ensures fits { MarkFits 1 99 (emp_entries rolled_back_behind) 2 5 0 }
    ensures known { rolled_back_from 5
        ≡ codes "APPLIED_SCN 105" ∷ codes "TABLE HR.EMP 1" ∷ codes "ROW 2 NULL NULL" ∷ codes "END 105 1 DRAINED" ∷ [] }
    ensures unknown { last_line (rolled_back_from 4) ≡ codes "END 99 0 MALFORMED 5 NOTOPEN" }
    ensures fits_behind_a_commit { MarkFits 1 99 (emp_entries side_by_side) 4 6 2 }
    ensures before { (resumed 1 99 (emp_entries side_by_side) 4 6).history.commits.before ≡ 1 }
    ensures count { commit_count (resumed 1 99 (emp_entries side_by_side) 4 6).history.commits ≡ 3 }
{}

/// Registered logs: their records up to a gap or a cut, and a second log that begins too late.
pub fn registered_logs_end()
    ensures records { length (redo_from 1 0 (log_1 ∷ log_2 ∷ log_5 ∷ [])).entries ≡ 5 }
    ensures stop { (redo_from 1 0 (log_1 ∷ log_2 ∷ log_5 ∷ [])).stop ≡ Gap 3 4 }
    ensures cut_records { length (redo_from 1 0 ((1, cut_short_log) ∷ [])).entries ≡ 4 }
    ensures cut_stop { (redo_from 1 0 ((1, cut_short_log) ∷ [])).stop ≡ Malformed 5 (Cut Truncated) }
    ensures chain { registered_end (log_1 ∷ log_at 2 111
        (rec 111 (start 2 ∷ row 2 2 ∷ []) ∷ rec 112 (Commit (one_of 2) ∷ []) ∷ []) ∷ []) ≡ codes "END 102 1 MALFORMED 4 CHAIN" }
{}

/// An id that is used again: after a COMMIT too, and by a rule that names it. A row that goes in its own transaction leaves
/// nothing.
pub fn ids_are_used_again()
    ensures after_commit { emp_end (rec 101 (start 1 ∷ row 1 1 ∷ []) ∷ commit 1 ∷ rec 103 (start 1 ∷ row 1 2 ∷ []) ∷
        rec 104 (Commit (one_of 1) ∷ []) ∷ []) ≡ codes "END 104 2 DRAINED" }
    ensures by_a_rule { folded_under (record { rule = Transaction (one_of 1); from = 0 } ∷ []) xid_used_again
        ≡ codes "APPLIED_SCN 104" ∷ codes "TABLE HR.EMP 0" ∷ codes "END 104 1 DRAINED" ∷ [] }
    ensures own_delete { emp_fold (rec 101 (start 1 ∷ row 1 1 ∷ OfChange (delete 1 ((0, n 1) ∷ (1, Null) ∷ (2, Null) ∷ [])) ∷ [])
        ∷ commit 1 ∷ []) Drained
        ≡ codes "APPLIED_SCN 102" ∷ codes "TABLE HR.EMP 0" ∷ codes "END 102 1 DRAINED" ∷ [] }
{}

/// The first log with a byte changed, or cut: what is known is printed.
pub fn first_log_is_changed()
    ensures rolled_back { fold_bytes 1 (Some (slice_set first_bytes 137 7)) ≡ codes "APPLIED_SCN 99" ∷ codes "TABLE T.A 0" ∷
        codes "END 99 0 DRAINED" ∷ [] }
    ensures header_alone { fold_bytes 1 (Some (take 40 first_bytes)) ≡ codes "APPLIED_SCN 99" ∷
        codes "END 99 0 MALFORMED 1 TRUNCATED" ∷ [] }
    ensures dictionary_alone { fold_bytes 1 (Some (take 75 first_bytes)) ≡ codes "APPLIED_SCN 99" ∷ codes "TABLE T.A 0" ∷
        codes "END 99 0 MALFORMED 2 TRUNCATED" ∷ [] }
{}

/// A redo that ends before its dictionary is whole shows no table.
pub fn unfinished_dictionary_shows_no_table()
    ensures absent { fold_lines (fold_of_redo 1 99 ((head_of 9, rec 100 (Table emp ∷ [])) ∷ []) Drained) ≡
        codes "APPLIED_SCN 99" ∷ codes "END 99 0 DRAINED" ∷ [] }
{}

/// As many changes of open transactions as may survive together, and one more.
pub fn open_changes_have_a_limit()
    ensures below { count_fault (2 ^ 19 - 1) ≡ None }
    ensures at { count_fault (2 ^ 19) ≡ Some OpenLimit }
    ensures past { count_fault (2 ^ 19 + 1) ≡ Some OpenLimit }
{}

/// Pairs of causes of which the first counts: of whole records, of the dictionary, of a change; and which key is the least.
pub fn further_orders_of_causes()
    ensures chain_before_scn { two_logs_at 210 100 ≡ codes "END 99 0 MALFORMED 2 CHAIN" }
    ensures below_its_log { two_logs_at 200 199 ≡ codes "END 99 0 MALFORMED 2 SCN" }
    ensures alone_before_dictionary { emp_end (rec 101 (DictEnd ∷ Commit (one_of 1) ∷ []) ∷ []) ≡
        codes "END 99 0 MALFORMED 2 ALONE" }
    ensures dictionary_before_twice { emp_end (rec 101 (Table emp ∷ []) ∷ []) ≡ codes "END 99 0 MALFORMED 2 DICTIONARY" }
    ensures keys_before_limit { dictionary_end (Table (record (text_keyed 126) { keys = (0 ∷ []) ∷ (0 ∷ []) ∷ [] }) ∷ []) ≡
        codes "END 99 0 MALFORMED 1 KEYS" }
    ensures lock_behind { paired_end (rec 103 (start 2 ∷ update 2 half_moved_logged ((1, n 3) ∷ []) ∷ start 1 ∷
        half_moved half_moved_logged ∷ []) ∷ [])
        ≡ codes "END 102 1 MALFORMED 4 LOCK T.P 0 (1) 2.1.1" }
    ensures supplement_before_lock { paired_end (rec 103
        (start 2 ∷ update 2 half_moved_logged ((1, n 3) ∷ []) ∷ start 1 ∷ half_moved ((0, n 1) ∷ (1, n 1) ∷ []) ∷ []) ∷ [])
        ≡ codes "END 102 1 MALFORMED 4 SUPPLEMENT" }
    ensures least_of_new { emp_end (rec 101 (start 1 ∷ row 1 5 ∷ []) ∷ rec 101 (start 2 ∷ row 2 4 ∷ []) ∷
        rec 101 (start 3 ∷ update 3 ((0, n 5) ∷ []) ((0, n 4) ∷ []) ∷ []) ∷ [])
        ≡ codes "END 99 0 MALFORMED 4 LOCK HR.EMP 0 (4) 2.1.1" }
    ensures row_limit_told { words (verdict_text [] (RowLimit 5)) ≡ codes "ROWLIMIT 5" }
{}

/// Work of two changes: each finds the rows of its count with what the one before it wrote, and writes at its row keys, the old
/// one and the new one. One that is done before its row is there misses.
pub fn work_finds_the_rows_of_its_counts()
    ensures later { work_behind renamed_1 1 ≡ Ok ((emp_key 2, Some (n 2 ∷ Null ∷ Null ∷ [])) ∷
        (emp_key 1, Some (n 1 ∷ Text (codes "B") ∷ Null ∷ []))
        ∷ (emp_key 1, Some (n 1 ∷ Text (codes "B") ∷ Null ∷ [])) ∷ []) }
    ensures own { work_behind removed_2 1 ≡ Ok ((emp_key 2, Some (n 2 ∷ Null ∷ Null ∷ [])) ∷ (emp_key 2, None) ∷ []) }
    ensures missed { work_behind renamed_1 0 ≡ Err (record
        { pos = record { rec = 3; vec = 1 }; table = 1; miss = Absent (emp_key 1) }) }
{}

/// Verdicts of a unique value that is taken are alike whoever has it; of two unique keys they are not, nor where one of them
/// has another miss.
pub fn verdicts_are_alike()
    ensures alike { AreAlikeVerdicts (missed_with (Taken 1 (emp_key 1))) (missed_with (Taken 1 (emp_key 2))) }
    ensures other_index { AreAlikeVerdicts (missed_with (Taken 1 (emp_key 1))) (missed_with (Taken 2 (emp_key 1))) →
        IsTrue false }
    ensures other_miss { AreAlikeVerdicts (missed_with (Absent (emp_key 1))) (missed_with (Absent (emp_key 2))) → IsTrue false }
{}
