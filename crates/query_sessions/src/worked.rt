//! Worked examples: what tables of two rows are asked, and the lines of the answers.
//!
//! Each function here has an empty body; its clauses hold by computing both sides.
ghost use Rattle.std.specs.Prelude.{◌≡◌, ◌∷◌, [], codes, true, false};
ghost use Rattle.rl_value.specs.declared.value.Value.TheVariants.{Null, Text};
ghost use Rattle.redo_spec.specs.Worked.{emp, n};
ghost use Rattle.query_sessions.specs.declared.query.Form.TheVariants.{All, Count, Key};
ghost use Rattle.query_sessions.specs.KeyForm.{is_key_of, may_be_asked};
ghost use Rattle.query_sessions.specs.Sessions.{new_session, may_see, session_after};
ghost use Rattle.query_sessions.specs.Asks.{is_due};
ghost use Rattle.query_sessions.specs.AnswerLines.{lines_of_asks};
ghost use Rattle.query_sessions.specs.Worked.{query_of, lines_asked, ask_of, answered_ask};

/// The rows of a table in order of their keys, their number, and the row of a key.
pub fn a_table_is_asked()
    ensures all { lines_asked 4096 1 All
        ≡ codes "ANSWER S 104 2" ∷ codes "ROW 1 'N' NULL" ∷ codes "ROW 5 'A' NULL" ∷ [] }
    ensures count { lines_asked 4096 1 Count ≡ codes "COUNT S 104 2" ∷ [] }
    ensures key { lines_asked 4096 1 (Key (n 5 ∷ [])) ≡ codes "ANSWER S 104 1" ∷ codes "ROW 5 'A' NULL" ∷ [] }
    ensures other_key { lines_asked 4096 1 (Key (n 2 ∷ [])) ≡ codes "ANSWER S 104 0" ∷ [] }
{}

/// More rows than may be answered are told by their number, and as many as may be are not.
pub fn too_many_rows_are_counted()
    ensures at_the_limit { lines_asked 2 1 All
        ≡ codes "ANSWER S 104 2" ∷ codes "ROW 1 'N' NULL" ∷ codes "ROW 5 'A' NULL" ∷ [] }
    ensures above_it { lines_asked 1 1 All ≡ codes "MANY S 104 2" ∷ [] }
    ensures count_at_the_limit { lines_asked 2 1 Count ≡ codes "COUNT S 104 2" ∷ [] }
    ensures count_above_it { lines_asked 1 1 Count ≡ codes "MANY S 104 2" ∷ [] }
{}

/// A table that is not there has no row, and no row is found by values that are no key.
pub fn what_is_not_there_has_no_row()
    ensures table { lines_asked 4096 2 All ≡ codes "ANSWER S 104 0" ∷ [] }
    ensures count { lines_asked 4096 2 Count ≡ codes "COUNT S 104 0" ∷ [] }
    ensures no_key { lines_asked 4096 1 (Key (Text (codes "5") ∷ [])) ≡ codes "ANSWER S 104 0" ∷ [] }
{}

/// The values of a primary key: one for each of its columns, of the column's type.
pub fn values_are_a_key_or_none()
    ensures number { is_key_of emp (n 5 ∷ []) ≡ true }
    ensures text { is_key_of emp (Text (codes "5") ∷ []) ≡ false }
    ensures null { is_key_of emp (Null ∷ []) ≡ false }
    ensures none { is_key_of emp [] ≡ false }
    ensures two { is_key_of emp (n 5 ∷ n 6 ∷ []) ≡ false }
    ensures asked { may_be_asked (emp ∷ []) (query_of 1 (Key (n 5 ∷ []))) ≡ true }
    ensures other_table { may_be_asked (emp ∷ []) (query_of 2 All) ≡ false }
{}

/// A session that was answered by the tables of two commits reads nothing older.
pub fn a_session_reads_forward()
    ensures fresh { may_see (new_session (codes "S")) 0 ≡ true }
    ensures older { may_see (session_after 2 (new_session (codes "S"))) 1 ≡ false }
    ensures same { may_see (session_after 2 (new_session (codes "S"))) 2 ≡ true }
{}

/// A query that waits is due from its SCN on, and printed once it has an answer.
pub fn a_query_waits_for_its_scn()
    ensures before { is_due (ask_of 3 104) 103 ≡ false }
    ensures at_it { is_due (ask_of 3 104) 104 ≡ true }
    ensures lines { lines_of_asks (ask_of 3 104 ∷ answered_ask 4 104 ∷ []) ≡ codes "COUNT S 104 2" ∷ [] }
{}
