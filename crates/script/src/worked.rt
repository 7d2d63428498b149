//! Worked examples: lines that are statements, lines that are none, and scripts.
//!
//! Each function here has an empty body; its clauses hold by computing both sides.
ghost use Rattle.std.specs.Prelude.{◌≡◌, ◌++◌, ◌∷◌, [], codes, Some, None, Ok, Err};
ghost use Rattle.rl_value.specs.declared.value.Value.TheVariants.{Null, Text, Raw};
ghost use Rattle.rl_base.specs.declared.replay.Event.TheVariants as events;
ghost use Rattle.rl_base.specs.declared.which.Which.TheVariants as views;
ghost use Rattle.skip_guard.specs.declared.guard.Level.TheVariants as levels;
ghost use Rattle.script.specs.declared.statement.Asked.TheVariants.{All, Count, Key};
ghost use Rattle.script.specs.declared.statement.Statement.TheVariants.{Create, Row, Register, SkipTable, SkipTransaction, Guard, Session, Query, Put, Apply, Replay, View, Mark, Group, Check};
ghost use Rattle.script_words.specs.Parts.{xid_named};
ghost use Rattle.script.specs.Statements.{statement_of};
ghost use Rattle.script.specs.Lines.{script_of};
ghost use Rattle.script.specs.Worked.{text, emp, n};

/// A line of each statement.
pub fn lines_are_statements()
    ensures create { statement_of (codes "CREATE 9 1") ≡ Some (Create 9 1) }
    ensures row { statement_of (codes "ROW HR.EMP 1 'A b' X'0A' NULL")
        ≡ Some (Row emp (n 1 ∷ Text (codes "A b") ∷ Raw (10 ∷ []) ∷ Null ∷ [])) }
    ensures register { statement_of (codes "REGISTER 4294967295") ≡ Some (Register 4294967295) }
    ensures skip_table { statement_of (codes "SKIP TABLE HR.%") ≡ Some (SkipTable (codes "HR.%")) }
    ensures skip_transaction { statement_of (codes "SKIP TRANSACTION 1.2.3") ≡ Some (SkipTransaction (xid_named 1 2 3)) }
    ensures guard { statement_of (codes "GUARD STANDBY") ≡ Some (Guard levels.Standby) }
    ensures session { statement_of (codes "SESSION S") ≡ Some (Session (codes "S")) }
    ensures query { statement_of (codes "QUERY S HR.EMP KEY 1") ≡ Some (Query (codes "S") None emp (Key (n 1 ∷ []))) }
    ensures during { statement_of (codes "QUERY S DURING 105 HR.EMP COUNT") ≡ Some (Query (codes "S") (Some 105) emp Count) }
    ensures put { statement_of (codes "PUT S HR.EMP 'it''s'") ≡ Some (Put (codes "S") emp (Text (codes "it's") ∷ [])) }
    ensures apply { statement_of (codes "APPLY 2 4") ≡ Some (Apply 2 4 4096 200) }
    ensures view { statement_of (codes "VIEW EVENTS") ≡ Some (View views.Events) }
    ensures mark { statement_of (codes "MARK 10000") ≡ Some (Mark 10000) }
    ensures group { statement_of (codes "GROUP 64") ≡ Some (Group 64) }
    ensures check { statement_of (codes "CHECK") ≡ Some Check }
{}

/// The events and the settings of a REPLAY.
pub fn replays_have_events()
    ensures drain { statement_of (codes "REPLAY 1 drain") ≡ Some (Replay 1 4096 200 ((events.Drain, 1) ∷ [])) }
    ensures set { statement_of (codes "REPLAY 1 CACHE 320 EAGER 64 cut*3 query:S")
        ≡ Some (Replay 1 320 64 ((events.Cut, 3) ∷ (events.Query (codes "S"), 1) ∷ [])) }
    ensures drain_once { statement_of (codes "REPLAY 1 drain*2") ≡ None }
    ensures drain_last { statement_of (codes "REPLAY 1 drain cut") ≡ None }
    ensures small_cache { statement_of (codes "REPLAY 1 CACHE 319 drain") ≡ None }
    ensures no_event { statement_of (codes "REPLAY 1 CACHE 320") ≡ None }
    ensures no_times { statement_of (codes "REPLAY 1 cut*0") ≡ None }
{}

/// Lines that are no statement.
pub fn lines_are_none()
    ensures leading_zero { statement_of (codes "REGISTER 01") ≡ None }
    ensures sequence_0 { statement_of (codes "REGISTER 0") ≡ None }
    ensures too_large { statement_of (codes "CREATE 4294967296 1") ≡ None }
    ensures two_spaces { statement_of (codes "CREATE 9  1") ≡ None }
    ensures space_at_the_end { statement_of (codes "CHECK ") ≡ None }
    ensures lower_case { statement_of (codes "check") ≡ None }
    ensures behind_a_quote { statement_of (codes "SKIP TABLE 'a'b") ≡ None }
    ensures not_closed { statement_of (codes "SKIP TABLE 'a b") ≡ None }
    ensures no_dot { statement_of (codes "QUERY S EMP ALL") ≡ None }
    ensures no_value { statement_of (codes "ROW HR.EMP") ≡ None }
    ensures two_numbers { statement_of (codes "SKIP TRANSACTION 1.2") ≡ None }
    ensures large_group { statement_of (codes "GROUP 65") ≡ None }
{}

/// A quote inside a word begins no text.
pub fn a_quote_inside_a_word_is_a_byte()
    ensures pattern { statement_of (codes "SKIP TABLE a'b") ≡ Some (SkipTable (codes "a'b")) }
{}

/// Scripts: comments and empty lines are passed over and counted, and the first bad line is told.
pub fn scripts_are_read()
    ensures lines { script_of (text (codes "# A" ∷ [] ∷ codes "CREATE 9 1" ∷ codes "CHECK" ∷ []))
        ≡ Ok ((3, Create 9 1) ∷ (4, Check) ∷ []) }
    ensures last_line { script_of (codes "CHECK") ≡ Ok ((1, Check) ∷ []) }
    ensures carriage_return { script_of (codes "CHECK" ++ 13 ∷ 10 ∷ 13 ∷ 10 ∷ codes "CHECK") ≡ Ok ((1, Check) ∷ (3, Check) ∷ []) }
    ensures two_of_them { script_of (codes "CHECK" ++ 13 ∷ 13 ∷ 10 ∷ []) ≡ Err 1 }
    ensures no_line_end { script_of (codes "CHECK" ++ 13 ∷ []) ≡ Err 1 }
    ensures first_bad { script_of (text (codes "CHECK" ∷ codes "CHEC" ∷ codes "X" ∷ [])) ≡ Err 2 }
    ensures nothing { script_of [] ≡ Ok [] }
{}
