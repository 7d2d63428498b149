//! Worked examples: the definitions compute, from the bytes of a log to the printed lines.
//!
//! Each function here has an empty body; its clauses hold by computing both sides. The logs are those of `specs/Worked.antt`.
ghost use Rattle.std.specs.Prelude.{◌≡◌, [], ◌∷◌, ◌++◌, ◌+◌, ◌^◌, replicate, codes, Some, None, Ok, true, false};
ghost use Rattle.rl_value.specs.declared.verdict.Stop.TheVariants.{Drained, Gap, Malformed};
ghost use Rattle.rl_value.specs.declared.verdict.Verdict.TheVariants.{RowLimit};
ghost use Rattle.rl_value.specs.declared.cause.Cause.TheVariants.{Cut, Head};
ghost use Rattle.rl_value.specs.declared.cause.CutFault.TheVariants.{Truncated};
ghost use Rattle.rl_value.specs.declared.cause.HeadFault.TheVariants.{Dbid};
ghost use Rattle.rl_value.specs.declared.cause.LawFault.TheVariants.{Limit};
ghost use Rattle.redo_vec.specs.declared.vector.Vector.TheVariants.{Table, Start, Change as OfChange, DictEnd, Undo, Commit, Rollback};
ghost use Rattle.rl_value.specs.declared.value.Value.TheVariants.{Null, Text, Raw};
ghost use Rattle.redo_spec.specs.Log.{log_bytes};
ghost use Rattle.redo_vec.specs.declared.columns.Kind.TheVariants as kinds;
ghost use Rattle.redo_spec.specs.Dictionary.{table_fault};
ghost use Rattle.redo_spec.specs.ChangeForm.{fits};
ghost use Rattle.redo_spec.specs.Watermark.{watermark_of};
ghost use Rattle.redo_spec.specs.Fold.{stop_of_commit, fold_of_redo};
ghost use Rattle.redo_spec.specs.Lines.{fold_lines};
ghost use Rattle.redo_spec.specs.Redo.{entries_of};
ghost use Rattle.redo_spec.specs.Skips.{matches, is_pattern, Tables, Transaction};
ghost use Rattle.redo_spec.specs.Worked.{later_watermark, first_log, first_bytes, emp_fold, emp_end, undone_update, locked_key, absent_row, cut_short, differing_row, fold_bytes, cut_short_log, long_text_log, short_text_log, trailing_log, last_line, rec, start, commit, row, one_of, unknown_table, unlogged_update, logged_update, short_insert, mistyped_insert, two_holders, dictionary_end, keyed, text_keyed, emp, two_logs_end, two_rows, n, moved_row, existing_row, xid_used_again, freed_value, folded_under, mined_stop, rolled_back, undone_insert, missed_and_rolled_back, side_by_side, folded_behind, given_up_value, log_1, log_2, logs_3_and_4, log_5, registered_end, audited_under, wide, late_dictionary, with_email, insert, update, delete, later_insert, freed_commits, emp_entries, insert_all, paired_end, half_moved, half_moved_logged, raw_keyed, sure_column, audit, head_of, column_of_numbers};
ghost use Rattle.redo_spec.specs.Mark.{MarkFits};

/// The 146 bytes of the first log.
pub fn first_log_is_spelled()
    ensures spelled { log_bytes first_log ≡ first_bytes }
{}

/// One transaction inserts one number: from the records, and from the bytes.
pub fn first_log_folds()
    ensures records { fold_lines (fold_of_redo 1 99 (entries_of first_log) Drained)
        ≡ codes "APPLIED_SCN 102" ∷ codes "TABLE T.A 1" ∷ codes "ROW 7" ∷ codes "END 102 1 DRAINED" ∷ [] }
    ensures bytes { fold_bytes 1 (Some first_bytes)
        ≡ codes "APPLIED_SCN 102" ∷ codes "TABLE T.A 1" ∷ codes "ROW 7" ∷ codes "END 102 1 DRAINED" ∷ [] }
{}

/// An update that an UNDO takes back leaves the insert before it.
pub fn undone_update_folds()
    ensures undone { emp_fold undone_update Drained
        ≡ codes "APPLIED_SCN 104" ∷ codes "TABLE HR.EMP 1" ∷ codes "ROW 1 'Ann' NULL" ∷ codes "END 104 1 DRAINED" ∷ [] }
{}

/// A key that another open transaction holds: the least one is told, with its holder.
pub fn locked_key_folds()
    ensures one { emp_fold locked_key Drained
        ≡ codes "APPLIED_SCN 99" ∷ codes "TABLE HR.EMP 0" ∷ codes "END 99 0 MALFORMED 3 LOCK HR.EMP 0 (1) 1.1.1" ∷ [] }
    ensures least { emp_end two_holders ≡ codes "END 99 0 MALFORMED 4 LOCK HR.EMP 0 (4) 2.1.1" }
{}

/// An update of a row that is not there is a mismatch.
pub fn absent_row_folds()
    ensures absent { emp_fold absent_row Drained
        ≡ codes "APPLIED_SCN 99" ∷ codes "TABLE HR.EMP 0" ∷ codes "END 99 0 MISMATCH 102 2.2 HR.EMP ABSENT (1)" ∷ [] }
{}

/// A record that is cut short ends the redo, and what stands before it is folded.
pub fn cut_short_folds()
    ensures truncated { emp_fold cut_short (Malformed 5 (Cut Truncated))
        ≡ codes "APPLIED_SCN 102" ∷ codes "TABLE HR.EMP 1" ∷ codes "ROW 7 NULL NULL" ∷
        codes "END 102 1 MALFORMED 5 TRUNCATED" ∷ [] }
{}

/// A row that is not as it was logged is a mismatch, at the column.
pub fn differing_row_folds()
    ensures differs { emp_fold differing_row Drained
        ≡ codes "APPLIED_SCN 102" ∷ codes "TABLE HR.EMP 1" ∷ codes "ROW 1 'Z' NULL"
        ∷ codes "END 102 1 MISMATCH 104 4.2 HR.EMP DIFFERS NAME 'A' 'Z'" ∷ [] }
{}

/// A log that is not there is a gap.
pub fn absent_log_folds()
    ensures gap { fold_bytes 1 None ≡ codes "APPLIED_SCN 0" ∷ codes "END 0 0 GAP 1 1" ∷ [] }
{}

/// A header that is refused is told, and no table is known.
pub fn bad_header_folds()
    ensures magic { fold_bytes 1 (Some (0 ∷ first_bytes)) ≡ codes "APPLIED_SCN 0" ∷
        codes "END 0 0 MALFORMED 1 HEADER MAGIC" ∷ [] }
    ensures short { fold_bytes 1 (Some []) ≡ codes "APPLIED_SCN 0" ∷ codes "END 0 0 MALFORMED 1 HEADER SHORT" ∷ [] }
    ensures sequence { fold_bytes 2 (Some first_bytes) ≡ codes "APPLIED_SCN 0" ∷
        codes "END 0 0 MALFORMED 1 HEADER SEQUENCE" ∷ [] }
{}

/// The same as a record cut short, from the bytes of a log whose last byte is missing.
pub fn cut_short_log_folds()
    ensures truncated { fold_bytes 1 (Some cut_short_log)
        ≡ codes "APPLIED_SCN 102" ∷ codes "TABLE HR.EMP 1" ∷ codes "ROW 7 NULL NULL" ∷
        codes "END 102 1 MALFORMED 5 TRUNCATED" ∷ [] }
{}

/// Bytes behind the last record are told of the next record's number.
pub fn trailing_byte_is_malformed()
    ensures trailing { last_line (fold_bytes 1 (Some trailing_log)) ≡ codes "END 102 1 MALFORMED 4 TRAILING" }
{}

/// A text of three bytes is read and printed; one of 501 bytes is refused at its length.
pub fn texts_are_read_from_bytes()
    ensures short { fold_bytes 1 (Some short_text_log)
        ≡ codes "APPLIED_SCN 102" ∷ codes "TABLE HR.EMP 1" ∷ codes "ROW 1 'Ann' NULL" ∷ codes "END 102 1 DRAINED" ∷ [] }
    ensures long { fold_bytes 1 (Some (long_text_log 501))
        ≡ codes "APPLIED_SCN 99" ∷ codes "TABLE T.B 0" ∷ codes "END 99 0 MALFORMED 2 SIZE 50" ∷ [] }
{}

/// Each rule on a transaction's vectors, with a record that breaks it.
pub fn bad_transactions_are_malformed()
    ensures open_twice { emp_end (rec 101 (start 1 ∷ start 1 ∷ []) ∷ []) ≡ codes "END 99 0 MALFORMED 2 OPENTWICE" }
    ensures not_open { emp_end (rec 101 (row 1 1 ∷ []) ∷ []) ≡ codes "END 99 0 MALFORMED 2 NOTOPEN" }
    ensures nothing { emp_end (rec 101 (start 1 ∷ row 1 1 ∷ Undo (one_of 1) ∷ Undo (one_of 1) ∷ []) ∷ []) ≡
        codes "END 99 0 MALFORMED 2 NOTHING" }
    ensures alone { emp_end (rec 101 (start 1 ∷ Commit (one_of 1) ∷ []) ∷ []) ≡ codes "END 99 0 MALFORMED 2 ALONE" }
    ensures commit_scn { emp_end (rec 101 (start 1 ∷ start 2 ∷ []) ∷ commit 1 ∷ commit 2 ∷ []) ≡
        codes "END 102 1 MALFORMED 4 SCN" }
{}

/// Rules on a change's table and cells, each with a record that breaks it; and an update that keeps them.
pub fn bad_changes_are_malformed()
    ensures no_table { emp_end (rec 101 (start 1 ∷ unknown_table ∷ []) ∷ []) ≡ codes "END 99 0 MALFORMED 2 NOTABLE" }
    ensures columns { emp_end (rec 101 (start 1 ∷ short_insert ∷ []) ∷ []) ≡ codes "END 99 0 MALFORMED 2 COLUMNS" }
    ensures types { emp_end (rec 101 (start 1 ∷ mistyped_insert ∷ []) ∷ []) ≡ codes "END 99 0 MALFORMED 2 TYPES" }
    ensures supplement { emp_end (rec 101 (start 1 ∷ row 1 1 ∷ unlogged_update ∷ []) ∷ []) ≡
        codes "END 99 0 MALFORMED 2 SUPPLEMENT" }
    ensures logged { emp_end (rec 101 (start 1 ∷ row 1 1 ∷ logged_update ∷ []) ∷ commit 1 ∷ []) ≡ codes "END 102 1 DRAINED" }
{}

/// Where two causes stand, the first in their order counts.
pub fn first_cause_counts()
    ensures scn_before_alone { emp_end (rec 99 (start 1 ∷ Commit (one_of 1) ∷ []) ∷ []) ≡ codes "END 99 0 MALFORMED 2 SCN" }
    ensures not_open_before_table { emp_end (rec 101 (unknown_table ∷ []) ∷ []) ≡ codes "END 99 0 MALFORMED 2 NOTOPEN" }
    ensures first_vector { emp_end (rec 101 (start 1 ∷ mistyped_insert ∷ start 1 ∷ []) ∷ []) ≡
        codes "END 99 0 MALFORMED 2 TYPES" }
{}

/// An SCN is at least the first of its log, below the next, and not below that of the record before.
pub fn scns_stay_in_their_log()
    ensures low { emp_end (rec 99 (start 1 ∷ []) ∷ []) ≡ codes "END 99 0 MALFORMED 2 SCN" }
    ensures high { emp_end (rec 200 (start 1 ∷ []) ∷ []) ≡ codes "END 99 0 MALFORMED 2 SCN" }
    ensures falling { emp_end (rec 105 (start 1 ∷ []) ∷ rec 104 (start 2 ∷ []) ∷ []) ≡ codes "END 99 0 MALFORMED 3 SCN" }
    ensures ends { emp_end (rec 100 (start 1 ∷ []) ∷ rec 199 (start 2 ∷ []) ∷ []) ≡ codes "END 99 0 DRAINED" }
{}

/// A log begins where the one before it ends.
pub fn logs_are_chained()
    ensures broken { two_logs_end 210 ≡ codes "END 99 0 MALFORMED 2 CHAIN" }
    ensures whole { two_logs_end 200 ≡ codes "END 99 0 DRAINED" }
{}

/// Rules on the dictionary, each with a record that breaks it; and the widest key.
pub fn bad_dictionaries_are_malformed()
    ensures twice { dictionary_end (Table emp ∷ Table emp ∷ DictEnd ∷ []) ≡ codes "END 99 0 MALFORMED 1 TWICE" }
    ensures key_column { dictionary_end (Table (keyed ((2 ∷ []) ∷ [])) ∷ []) ≡ codes "END 99 0 MALFORMED 1 KEYS" }
    ensures equal_keys { dictionary_end (Table (keyed ((0 ∷ []) ∷ (1 ∷ []) ∷ (1 ∷ []) ∷ [])) ∷ []) ≡
        codes "END 99 0 MALFORMED 1 KEYS" }
    ensures widest_key { dictionary_end (Table (text_keyed 125) ∷ []) ≡ codes "END 99 0 DRAINED" }
    ensures wide_key { dictionary_end (Table (text_keyed 126) ∷ []) ≡ codes "END 99 0 MALFORMED 1 LIMIT" }
    ensures change_before_end { dictionary_end (Table emp ∷ start 1 ∷ []) ≡ codes "END 99 0 MALFORMED 1 DICTIONARY" }
    ensures table_behind_end { dictionary_end (DictEnd ∷ Table emp ∷ []) ≡ codes "END 99 0 MALFORMED 1 DICTIONARY" }
{}

/// A row of a table with two unique keys is refused at the least of them; a Null is no unique value.
pub fn unique_values_are_taken()
    ensures second { two_rows (n 1 ∷ n 5 ∷ n 6 ∷ []) (n 2 ∷ n 7 ∷ n 6 ∷ [])
        ≡ codes "APPLIED_SCN 102" ∷ codes "TABLE T.U 1" ∷ codes "ROW 1 5 6" ∷
        codes "END 102 1 MISMATCH 104 4.2 T.U TAKEN 2 (1)" ∷ [] }
    ensures least { last_line (two_rows (n 1 ∷ n 5 ∷ n 6 ∷ []) (n 2 ∷ n 5 ∷ n 6 ∷ [])) ≡
        codes "END 102 1 MISMATCH 104 4.2 T.U TAKEN 1 (1)" }
    ensures exists_first { last_line (two_rows (n 1 ∷ n 5 ∷ n 6 ∷ []) (n 1 ∷ n 5 ∷ n 6 ∷ [])) ≡
        codes "END 102 1 MISMATCH 104 4.2 T.U EXISTS (1)" }
    ensures null { last_line (two_rows (n 1 ∷ Null ∷ n 6 ∷ []) (n 2 ∷ Null ∷ n 7 ∷ [])) ≡ codes "END 104 2 DRAINED" }
{}

/// An insert of a key that is there is a mismatch.
pub fn existing_row_folds()
    ensures exists { last_line (emp_fold existing_row Drained) ≡ codes "END 102 1 MISMATCH 104 4.2 HR.EMP EXISTS (1)" }
{}

/// An update of the primary key moves the row.
pub fn moved_row_folds()
    ensures moved { emp_fold moved_row Drained
        ≡ codes "APPLIED_SCN 106" ∷ codes "TABLE HR.EMP 2" ∷ codes "ROW 1 'N' NULL" ∷ codes "ROW 5 'A' NULL" ∷
        codes "END 106 3 DRAINED" ∷ [] }
{}

/// The id of a transaction that has ended is used again.
pub fn xid_is_used_again()
    ensures again { emp_fold xid_used_again Drained
        ≡ codes "APPLIED_SCN 104" ∷ codes "TABLE HR.EMP 1" ∷ codes "ROW 2 NULL NULL" ∷ codes "END 104 1 DRAINED" ∷ [] }
{}

/// A commit frees a unique value that the next one takes, and waits for it.
pub fn freed_value_is_taken()
    ensures folds { emp_fold freed_value Drained
        ≡ codes "APPLIED_SCN 106" ∷ codes "TABLE HR.EMP 1" ∷ codes "ROW 2 'B' 'x@a'" ∷ codes "END 106 3 DRAINED" ∷ [] }
    ensures waits { later_watermark ≡ 2 }
{}

/// A skip rule counts from the commit after its number.
pub fn skips_pass_changes_over()
    ensures by_pattern { folded_under (record { rule = Tables (codes "HR.%"); from = 0 } ∷ []) existing_row
        ≡ codes "APPLIED_SCN 104" ∷ codes "TABLE HR.EMP 0" ∷ codes "END 104 2 DRAINED" ∷ [] }
    ensures later { folded_under (record { rule = Transaction (one_of 2); from = 1 } ∷ []) existing_row
        ≡ codes "APPLIED_SCN 104" ∷ codes "TABLE HR.EMP 1" ∷ codes "ROW 1 NULL NULL" ∷ codes "END 104 2 DRAINED" ∷ [] }
    ensures too_late { last_line (folded_under (record { rule = Transaction (one_of 2); from = 2 } ∷ []) existing_row)
        ≡ codes "END 102 1 MISMATCH 104 4.2 HR.EMP EXISTS (1)" }
{}

/// Behind a mark a transaction whose START is not read is passed over and its COMMIT counts, up to the known record. With record
/// 5 known the mark fits (`laws::a_run_from_a_mark_goes_as_far`); with record 3 it does not, since transaction 1 is still open.
pub fn unknown_transactions_are_passed_over()
    ensures fits { MarkFits 1 99 (emp_entries side_by_side) 2 5 1 }
    ensures known { folded_behind 5
        ≡ codes "APPLIED_SCN 106" ∷ codes "TABLE HR.EMP 3" ∷ codes "ROW 1 NULL NULL" ∷ codes "ROW 2 NULL NULL" ∷
        codes "ROW 3 NULL NULL"
        ∷ codes "END 106 3 DRAINED" ∷ [] }
    ensures last { last_line (folded_behind 4) ≡ codes "END 106 3 DRAINED" }
    ensures unknown { last_line (folded_behind 3) ≡ codes "END 103 1 MALFORMED 4 NOTOPEN" }
{}

/// `%` is any bytes and `_` any one; a pattern is two parts with one dot.
pub fn patterns_name_tables()
    ensures named { matches (codes "HR.AUD%") (codes "HR.AUDIT") ≡ true }
    ensures other { matches (codes "HR.AUD%") (codes "HR.EMP") ≡ false }
    ensures one { matches (codes "HR._M%") (codes "HR.EMP") ≡ true }
    ensures none { matches (codes "HR.EMP%") (codes "HR.EMP") ≡ true }
    ensures form { is_pattern (codes "HR.AUD%") ≡ true }
    ensures no_dot { is_pattern (codes "HR") ≡ false }
    ensures two_dots { is_pattern (codes "HR.A.B") ≡ false }
    ensures empty_part { is_pattern (codes ".A") ≡ false }
{}

/// `mine` meets each log's header as it comes to it.
pub fn mined_logs_are_met_in_order()
    ensures drained { mined_stop 9 2 ≡ Drained }
    ensures other_database { mined_stop 8 2 ≡ Malformed 4 (Head Dbid) }
    ensures absent { mined_stop 9 4 ≡ Gap 3 3 }
{}

/// A dictionary alone gives tables without rows.
pub fn dictionary_alone_folds()
    ensures rowless { emp_fold [] Drained ≡ codes "APPLIED_SCN 99" ∷ codes "TABLE HR.EMP 0" ∷ codes "END 99 0 DRAINED" ∷ [] }
{}

/// What is rolled back leaves nothing, and its keys are free.
pub fn rolled_back_changes_leave_nothing()
    ensures key { emp_fold rolled_back Drained
        ≡ codes "APPLIED_SCN 104" ∷ codes "TABLE HR.EMP 1" ∷ codes "ROW 1 'New' NULL" ∷ codes "END 104 1 DRAINED" ∷ [] }
    ensures miss { emp_fold missed_and_rolled_back Drained
        ≡ codes "APPLIED_SCN 99" ∷ codes "TABLE HR.EMP 0" ∷ codes "END 99 0 DRAINED" ∷ [] }
{}

/// A change that an UNDO took back touches nothing any more: another transaction may take its key.
pub fn undone_change_frees_its_key()
    ensures freed { emp_fold undone_insert Drained
        ≡ codes "APPLIED_SCN 107" ∷ codes "TABLE HR.EMP 2" ∷ codes "ROW 1 NULL NULL" ∷ codes "ROW 2 'T' NULL" ∷
        codes "END 107 2 DRAINED" ∷ [] }
{}

/// Transactions side by side are numbered in the order of their commits.
pub fn transactions_side_by_side_fold()
    ensures two { emp_fold (cut_short ++ rec 104 (Commit (one_of 2) ∷ []) ∷ []) Drained
        ≡ codes "APPLIED_SCN 104" ∷ codes "TABLE HR.EMP 2" ∷ codes "ROW 7 NULL NULL" ∷ codes "ROW 8 NULL NULL" ∷
        codes "END 104 2 DRAINED" ∷ [] }
    ensures three { emp_fold side_by_side Drained
        ≡ codes "APPLIED_SCN 106" ∷ codes "TABLE HR.EMP 3" ∷ codes "ROW 1 NULL NULL" ∷ codes "ROW 2 NULL NULL" ∷
        codes "ROW 3 NULL NULL"
        ∷ codes "END 106 3 DRAINED" ∷ [] }
{}

/// A unique value is a key that is held, an old one too; a Null is none.
pub fn unique_values_are_locked()
    ensures new { emp_end (rec 101 (start 1 ∷ with_email 1 5 (codes "e@x") ∷ []) ∷
        rec 101 (start 2 ∷ with_email 2 6 (codes "e@x") ∷ []) ∷ [])
        ≡ codes "END 99 0 MALFORMED 3 LOCK HR.EMP 1 ('e@x') 1.1.1" }
    ensures old { emp_end given_up_value ≡ codes "END 102 1 MALFORMED 5 LOCK HR.EMP 1 ('x@a') 1.1.1" }
    ensures null { emp_end (rec 101 (start 1 ∷ row 1 1 ∷ []) ∷ rec 101 (start 2 ∷ row 2 2 ∷ []) ∷ []) ≡ codes "END 99 0 DRAINED" }
{}

/// A lock in the record that ends the dictionary is told with its table's name, though no table is known.
pub fn lock_beside_the_dictionary_names_its_table()
    ensures named { dictionary_end (Table emp ∷ DictEnd ∷ start 1 ∷ row 1 1 ∷ start 2 ∷ row 2 1 ∷ [])
        ≡ codes "END 99 0 MALFORMED 1 LOCK HR.EMP 0 (1) 1.1.1" }
{}

/// A sequence that is not registered below one that is ends the redo as a gap.
pub fn registered_logs_fold()
    ensures gap { registered_end (log_1 ∷ log_2 ∷ log_5 ∷ []) ≡ codes "END 111 2 GAP 3 4" }
    ensures drained { registered_end (log_1 ∷ log_2 ∷ logs_3_and_4 ++ log_5 ∷ []) ≡ codes "END 141 4 DRAINED" }
{}

/// A table that is skipped shows its local rows, and the others the fold.
pub fn skipped_table_shows_local_rows()
    ensures local { audited_under (record { rule = Tables (codes "HR.AUD%"); from = 0 } ∷ [])
        ≡ codes "TABLE HR.EMP 1" ∷ codes "ROW 1 'A' NULL" ∷ codes "TABLE HR.AUDIT 1" ∷ codes "ROW 1 'x'" ∷ [] }
{}

/// A text of 500 bytes, the longest, is read.
pub fn longest_text_is_read()
    ensures longest { last_line (fold_bytes 1 (Some (long_text_log 500))) ≡ codes "END 102 1 DRAINED" }
{}

/// Misses of updates and deletes; a row's own unique value is none.
pub fn updates_and_deletes_miss()
    ensures absent { emp_end (rec 101 (start 1 ∷ OfChange (delete 1 ((0, n 1) ∷ (1, Null) ∷ (2, Null) ∷ [])) ∷ [])
        ∷ commit 1 ∷ [])
        ≡ codes "END 99 0 MISMATCH 102 2.2 HR.EMP ABSENT (1)" }
    ensures least_column { emp_end (rec 101 (start 1 ∷ insert 1 (n 1) (Text (codes "A")) (Text (codes "a@x")) ∷ []) ∷ commit 1
        ∷ rec 103 (start 2 ∷ OfChange (delete 2 ((0, n 1) ∷ (1, Text (codes "B")) ∷ (2, Null) ∷ [])) ∷ []) ∷
        rec 104 (Commit (one_of 2) ∷ []) ∷ [])
        ≡ codes "END 102 1 MISMATCH 104 4.2 HR.EMP DIFFERS NAME 'B' 'A'" }
    ensures exists { emp_end (rec 101 (start 1 ∷ row 1 1 ∷ row 1 2 ∷ []) ∷ commit 1
        ∷ rec 103 (start 2 ∷ update 2 ((0, n 1) ∷ []) ((0, n 2) ∷ []) ∷ []) ∷ rec 104 (Commit (one_of 2) ∷ []) ∷ [])
        ≡ codes "END 102 1 MISMATCH 104 4.2 HR.EMP EXISTS (2)" }
    ensures taken { emp_end (rec 101 (start 1 ∷ with_email 1 1 (codes "a@x") ∷ with_email 1 2 (codes "b@x") ∷ []) ∷ commit 1
        ∷ rec 103 (start 2 ∷ update 2 ((0, n 2) ∷ (2, Text (codes "b@x")) ∷ []) ((2, Text (codes "a@x")) ∷ []) ∷ []) ∷
        rec 104 (Commit (one_of 2) ∷ []) ∷ [])
        ≡ codes "END 102 1 MISMATCH 104 4.2 HR.EMP TAKEN 1 (1)" }
    ensures own_value { emp_end (rec 101 (start 1 ∷ with_email 1 1 (codes "a@x") ∷ []) ∷ commit 1
        ∷ rec 103 (start 2 ∷ update 2 ((0, n 1) ∷ (1, Null) ∷ []) ((1, Text (codes "N")) ∷ []) ∷ []) ∷
        rec 104 (Commit (one_of 2) ∷ []) ∷ [])
        ≡ codes "END 104 2 DRAINED" }
{}

/// Further rules on the dictionary, their order, and their greatest allowed values.
pub fn further_dictionaries()
    ensures id_0 { dictionary_end (Table (record emp { id = 0 }) ∷ DictEnd ∷ []) ≡ codes "END 99 0 DRAINED" }
    ensures twice_by_name { dictionary_end (Table emp ∷ Table (record emp { id = 2 }) ∷ []) ≡ codes "END 99 0 MALFORMED 1 TWICE" }
    ensures other_schema { dictionary_end (Table emp ∷ Table (record emp { id = 2; schema = codes "HX" }) ∷ []) ≡
        codes "END 99 0 DRAINED" }
    ensures no_name { dictionary_end (Table (record emp { name = codes "1EMP" }) ∷ []) ≡ codes "END 99 0 MALFORMED 1 NAMES" }
    ensures nullable_key { dictionary_end (Table (record emp { keys = (1 ∷ []) ∷ [] }) ∷ []) ≡ codes "END 99 0 MALFORMED 1 KEYS" }
    ensures widest_row { dictionary_end (Table (wide 6) ∷ []) ≡ codes "END 99 0 DRAINED" }
    ensures wide_row { dictionary_end (Table (wide 7) ∷ []) ≡ codes "END 99 0 MALFORMED 1 LIMIT" }
    ensures table_256 { table_fault (replicate 255 emp) (keyed ((0 ∷ []) ∷ [])) ≡ None }
    ensures table_257 { table_fault (replicate 256 emp) (keyed ((0 ∷ []) ∷ [])) ≡ Some Limit }
    ensures twice_before_names { dictionary_end (Table emp ∷ Table (record emp { name = codes "1EMP" }) ∷ []) ≡
        codes "END 99 0 MALFORMED 1 TWICE" }
    ensures names_before_keys { dictionary_end (Table (record emp { name = codes "1EMP"; keys = (3 ∷ []) ∷ [] }) ∷ []) ≡
        codes "END 99 0 MALFORMED 1 NAMES" }
    ensures key_of_no_column { dictionary_end (Table (record (text_keyed 126) { keys = (1 ∷ []) ∷ [] }) ∷ []) ≡
        codes "END 99 0 MALFORMED 1 KEYS" }
    ensures late { last_line (fold_lines (fold_of_redo 1 99 late_dictionary Drained)) ≡ codes "END 99 0 MALFORMED 2 DICTIONARY" }
    ensures before_not_open { dictionary_end (Table emp ∷ row 1 1 ∷ []) ≡ codes "END 99 0 MALFORMED 1 DICTIONARY" }
{}

/// Further pairs of causes of which the first counts.
pub fn further_first_causes()
    ensures columns_before_types { emp_end (rec 101 (start 1 ∷ update 1 ((0, Text (codes "one")) ∷ []) [] ∷ []) ∷ []) ≡
        codes "END 99 0 MALFORMED 2 COLUMNS" }
    ensures types_before_supplement { emp_end (rec 101 (start 1 ∷ update 1 ((0, Text (codes "one")) ∷ []) ((1, Null) ∷ []) ∷ []) ∷
        []) ≡ codes "END 99 0 MALFORMED 2 TYPES" }
    ensures not_open_before_scn { emp_end (rec 101 (start 1 ∷ []) ∷ commit 1 ∷ commit 2 ∷ []) ≡
        codes "END 102 1 MALFORMED 4 NOTOPEN" }
    ensures record_before_cut { last_line (emp_fold (rec 101 (row 1 1 ∷ []) ∷ []) (Malformed 3 (Cut Truncated))) ≡
        codes "END 99 0 MALFORMED 2 NOTOPEN" }
    ensures miss_before_bad_record { emp_end (existing_row ++ rec 105 (DictEnd ∷ []) ∷ []) ≡
        codes "END 102 1 MISMATCH 104 4.2 HR.EMP EXISTS (1)" }
{}

/// 2^20 rows may be live, and one more stops the fold.
pub fn live_rows_have_a_limit()
    ensures most { stop_of_commit 5 (Ok (2 ^ 20)) ≡ None }
    ensures one_more { stop_of_commit 5 (Ok (2 ^ 20 + 1)) ≡ Some (RowLimit 5) }
{}

/// A change that is skipped waits for nothing, and no change waits for one that is skipped.
pub fn skipped_changes_do_not_wait()
    ensures kept { watermark_of [] (emp ∷ []) freed_commits 0 (record { rec = 6; vec = 2 }, later_insert) ≡ 2 }
    ensures skipped { watermark_of (record { rule = Tables (codes "HR.%"); from = 0 } ∷ []) (emp ∷ []) freed_commits 0
        (record { rec = 6; vec = 2 }, later_insert) ≡ 0 }
    ensures other_skipped { watermark_of (record { rule = Transaction (one_of 1); from = 0 } ∷ []) (emp ∷ []) freed_commits 0
        (record { rec = 6; vec = 2 }, later_insert) ≡ 1 }
{}

/// Further rules on transactions: what stands alone, what has to be open, and which SCNs a COMMIT is above.
pub fn further_transactions()
    ensures rollback_alone { emp_end (rec 101 (start 1 ∷ Rollback (one_of 1) ∷ []) ∷ []) ≡ codes "END 99 0 MALFORMED 2 ALONE" }
    ensures undo_of_none { emp_end (rec 101 (Undo (one_of 1) ∷ []) ∷ []) ≡ codes "END 99 0 MALFORMED 2 NOTOPEN" }
    ensures commit_of_none { emp_end (commit 1 ∷ []) ≡ codes "END 99 0 MALFORMED 2 NOTOPEN" }
    ensures rollback_of_none { emp_end (rec 101 (Rollback (one_of 1) ∷ []) ∷ []) ≡ codes "END 99 0 MALFORMED 2 NOTOPEN" }
    ensures ended_by_rollback { emp_end (rec 101 (start 1 ∷ []) ∷ rec 102 (Rollback (one_of 1) ∷ []) ∷ rec 103 (row 1 1 ∷ []) ∷
        []) ≡ codes "END 99 0 MALFORMED 4 NOTOPEN" }
    ensures behind_rollback { emp_end (rec 101 (start 1 ∷ start 2 ∷ []) ∷ rec 102 (Rollback (one_of 1) ∷ []) ∷ commit 2 ∷ []) ≡
        codes "END 102 1 DRAINED" }
    ensures latest_undone { emp_fold (rec 101 (start 1 ∷ row 1 1 ∷ row 1 2 ∷ Undo (one_of 1) ∷ []) ∷ commit 1 ∷ []) Drained
        ≡ codes "APPLIED_SCN 102" ∷ codes "TABLE HR.EMP 1" ∷ codes "ROW 1 NULL NULL" ∷ codes "END 102 1 DRAINED" ∷ [] }
    ensures log_before_its_turn { two_logs_end 190 ≡ codes "END 99 0 MALFORMED 2 CHAIN" }
{}

/// A unique key of two columns of which one is set: what has to be logged, and which key is held.
pub fn key_of_two_columns_moves()
    ensures drained { paired_end (rec 103 (start 1 ∷ half_moved half_moved_logged ∷ []) ∷ rec 104 (Commit (one_of 1) ∷ []) ∷ []) ≡
        codes "END 104 2 DRAINED" }
    ensures unlogged { paired_end (rec 103 (start 1 ∷ half_moved ((0, n 1) ∷ (1, n 1) ∷ []) ∷ []) ∷ []) ≡
        codes "END 102 1 MALFORMED 4 SUPPLEMENT" }
    ensures logged_more { emp_end (rec 101 (start 1 ∷ row 1 1 ∷
        update 1 ((0, n 1) ∷ (1, Null) ∷ (2, Null) ∷ []) ((1, Text (codes "B")) ∷ []) ∷ []) ∷ [])
        ≡ codes "END 99 0 MALFORMED 2 SUPPLEMENT" }
    ensures new_held { paired_end (rec 103 (start 1 ∷ half_moved half_moved_logged ∷ []) ∷
        rec 103 (start 2 ∷ insert_all 2 (n 2 ∷ n 2 ∷ n 5 ∷ []) ∷ []) ∷ [])
        ≡ codes "END 102 1 MALFORMED 5 LOCK T.P 1 (2,5) 1.1.1" }
    ensures old_held { paired_end (rec 103 (start 1 ∷ half_moved half_moved_logged ∷ []) ∷
        rec 103 (start 2 ∷ insert_all 2 (n 2 ∷ n 1 ∷ n 5 ∷ []) ∷ []) ∷ [])
        ≡ codes "END 102 1 MALFORMED 5 LOCK T.P 1 (1,5) 1.1.1" }
    ensures unlogged_onto_held { paired_end (rec 103 (start 2 ∷ insert_all 2 (n 2 ∷ n 2 ∷ n 5 ∷ []) ∷ start 1 ∷
        half_moved ((0, n 1) ∷ (1, n 1) ∷ []) ∷ []) ∷ [])
        ≡ codes "END 102 1 MALFORMED 4 SUPPLEMENT" }
{}

/// Which cells the kinds of a change want, and which column is the last.
pub fn changes_have_their_cells()
    ensures old_of_insert { emp_end (rec 101 (start 1 ∷ OfChange (record later_insert { xid = one_of 1; old = (0, n 2) ∷ [] }) ∷
        []) ∷ []) ≡ codes "END 99 0 MALFORMED 2 COLUMNS" }
    ensures new_of_delete { emp_end (rec 101 (start 1 ∷ OfChange
        (record (delete 1 ((0, n 1) ∷ (1, Null) ∷ (2, Null) ∷ [])) { new = (0, n 1) ∷ [] }) ∷ []) ∷ [])
        ≡ codes "END 99 0 MALFORMED 2 COLUMNS" }
    ensures short_delete { emp_end (rec 101 (start 1 ∷ OfChange (delete 1 ((0, n 1) ∷ (1, Null) ∷ [])) ∷ []) ∷ []) ≡
        codes "END 99 0 MALFORMED 2 COLUMNS" }
    ensures beyond { emp_end (rec 101 (start 1 ∷ update 1 ((0, n 1) ∷ (3, Null) ∷ []) ((3, Null) ∷ []) ∷ []) ∷ []) ≡
        codes "END 99 0 MALFORMED 2 COLUMNS" }
    ensures differs_before_exists { emp_end (rec 101 (start 1 ∷ insert 1 (n 1) (Text (codes "A")) Null ∷ row 1 2 ∷ []) ∷ commit 1
        ∷ rec 103 (start 2 ∷ update 2 ((0, n 1) ∷ (1, Text (codes "B")) ∷ []) ((0, n 2) ∷ (1, Null) ∷ []) ∷ []) ∷
        rec 104 (Commit (one_of 2) ∷ []) ∷ [])
        ≡ codes "END 102 1 MISMATCH 104 4.2 HR.EMP DIFFERS NAME 'B' 'A'" }
{}

/// A value fits a column of its kind, up to its size.
pub fn values_fit_their_columns()
    ensures number { fits (sure_column kinds.Number) (n 7) ≡ true }
    ensures text_as_number { fits (sure_column kinds.Number) (Text (codes "7")) ≡ false }
    ensures number_as_text { fits (sure_column (kinds.Text 3)) (n 7) ≡ false }
    ensures longest_text { fits (sure_column (kinds.Text 3)) (Text (codes "Ann")) ≡ true }
    ensures long_text { fits (sure_column (kinds.Text 3)) (Text (codes "Anna")) ≡ false }
    ensures raw_as_text { fits (sure_column (kinds.Text 3)) (Raw (1 ∷ [])) ≡ false }
    ensures longest_raw { fits (sure_column (kinds.Raw 2)) (Raw (0 ∷ 255 ∷ [])) ≡ true }
    ensures long_raw { fits (sure_column (kinds.Raw 2)) (Raw (0 ∷ 1 ∷ 2 ∷ [])) ≡ false }
    ensures text_as_raw { fits (sure_column (kinds.Raw 2)) (Text (codes "A")) ≡ false }
    ensures null { fits (sure_column kinds.Number) Null ≡ false }
    ensures nullable { fits (record (sure_column kinds.Number) { nullable = true }) Null ≡ true }
{}

/// Names of a dictionary, raw keys at their limit, and tables in order of their ids.
pub fn dictionaries_are_in_order()
    ensures no_schema { dictionary_end (Table (record emp { schema = codes "hr" }) ∷ []) ≡ codes "END 99 0 MALFORMED 1 NAMES" }
    ensures no_column_name { dictionary_end (Table (record emp
        { columns = column_of_numbers (codes "ID") ∷ column_of_numbers (codes "_B") ∷ column_of_numbers (codes "C") ∷ [] }) ∷ [])
        ≡ codes "END 99 0 MALFORMED 1 NAMES" }
    ensures column_twice { dictionary_end (Table (record emp
        { columns = column_of_numbers (codes "ID") ∷ column_of_numbers (codes "B") ∷ column_of_numbers (codes "B") ∷ [] }) ∷ [])
        ≡ codes "END 99 0 MALFORMED 1 NAMES" }
    ensures widest_raw_key { dictionary_end (Table (raw_keyed 125) ∷ []) ≡ codes "END 99 0 DRAINED" }
    ensures wide_raw_key { dictionary_end (Table (raw_keyed 126) ∷ []) ≡ codes "END 99 0 MALFORMED 1 LIMIT" }
    ensures nullable_unique { dictionary_end (Table (record emp { keys = (0 ∷ []) ∷ (1 ∷ []) ∷ [] }) ∷ DictEnd ∷ []) ≡
        codes "END 99 0 DRAINED" }
    ensures by_id { fold_lines (fold_of_redo 1 99 ((head_of 1, rec 100 (Table audit ∷ Table emp ∷ DictEnd ∷ [])) ∷ []) Drained)
        ≡ codes "APPLIED_SCN 99" ∷ codes "TABLE HR.EMP 0" ∷ codes "TABLE HR.AUDIT 0" ∷ codes "END 99 0 DRAINED" ∷ [] }
{}

/// A rule on tables counts from the commit after its number too; a part of a pattern has at most 30 bytes.
pub fn further_rules()
    ensures from_commit_2 { folded_under (record { rule = Tables (codes "HR.%"); from = 1 } ∷ []) existing_row
        ≡ codes "APPLIED_SCN 104" ∷ codes "TABLE HR.EMP 1" ∷ codes "ROW 1 NULL NULL" ∷ codes "END 104 2 DRAINED" ∷ [] }
    ensures from_commit_3 { last_line (folded_under (record { rule = Tables (codes "HR.%"); from = 2 } ∷ []) existing_row) ≡
        codes "END 102 1 MISMATCH 104 4.2 HR.EMP EXISTS (1)" }
    ensures longest_part { is_pattern (codes "HR." ++ replicate 30 65) ≡ true }
    ensures long_part { is_pattern (codes "HR." ++ replicate 31 65) ≡ false }
    ensures lower_case { is_pattern (codes "hr.EMP") ≡ false }
    ensures percent_alone { matches (codes "%") (codes "") ≡ true }
    ensures one_is_a_byte { matches (codes "HR.EM_") (codes "HR.EM") ≡ false }
    ensures byte_is_itself { matches (codes "HR.EMP") (codes "HR.EMQ") ≡ false }
{}
