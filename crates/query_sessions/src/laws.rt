//! Laws of answers, each stated by a public function with an empty body.
ghost use Rattle.std.specs.Prelude.{◌≡◌, ◌≤◌, ◌<◌, ◌↔◌, ℕ, List, [], None, IsTrue, length};
ghost use Rattle.rl_value.specs.declared.value.Value.{Value};
ghost use Rattle.redo_spec.specs.Dictionary.{table_of};
ghost use Rattle.redo_spec.specs.Tables.{Tables, definitions_of};
ghost use Rattle.table_store.specs.declared.view.View.{View};
ghost use Rattle.query_sessions.specs.declared.asks.Ask.{Ask};
ghost use Rattle.query_sessions.specs.declared.query.Form.{Form};
ghost use Rattle.query_sessions.specs.declared.query.Query.{Query};
ghost use Rattle.query_sessions.specs.declared.answer.Answer.TheVariants.{Many};
ghost use Rattle.query_sessions.specs.AnswerLines.{lines_by, lines_of_asks};
ghost use Rattle.query_sessions.specs.Answers.{row_of_key, matching, answer_of};
ghost use Rattle.query_sessions.specs.Asks.{are_open, with_answers};

/// That more rows match than may be answered is told exactly where it is so, with their number.
pub fn many_is_told_exactly_above_the_limit()
    ensures many { (tables : Tables) (query : Query) (most : ℕ) →
        (answer_of tables query most ≡ Many (length (matching query.form tables query.table)))
        ↔ (most < length (matching query.form tables query.table)) }
{}

/// A primary key finds one row at most.
pub fn a_key_finds_one_row_at_most()
    ensures one { (tables : Tables) (id : ℕ) (key : List Value) → length (row_of_key tables id key) ≤ 1 }
{}

/// No row of a table that is not there matches.
pub fn a_table_that_is_not_there_has_no_row()
    ensures none { (tables : Tables) (id : ℕ) (form : Form) → table_of (definitions_of tables) id ≡ None →
        matching form tables id ≡ [] }
{}

/// Queries that have no answer, once they are answered by a view, have the lines of its tables' answers.
pub fn open_queries_are_answered_by_the_view()
    ensures lines { (view : View) (asks : List Ask) → IsTrue (are_open asks) →
        lines_of_asks (with_answers view asks) ≡ lines_by view asks }
{}
