//! Printing and reading agree: what the crates above may use of it.
//!
//! Each function here only calls the laws that its own follows from; its clauses are the law.
ghost use Rattle.std.specs.Prelude.{◌≡◌, ◌≤◌, ◌∷◌, ◌++◌, [], true, false, Ok, List, ℕ, length, is_some};
ghost use Rattle.std.specs.List.{flat_map, concat};
ghost use Rattle.redo_spec.specs.declared.header.Header.{Header};
ghost use Rattle.redo_vec.specs.Ranges.{AreBytes};
ghost use Rattle.redo_vec.specs.Spelling.{record_bytes};
ghost use Rattle.redo_spec.specs.Redo.{records_in};
ghost use Rattle.redo_text.specs.Streaming.{Shown, shown_at, pieces_text, pieces_ended};
ghost use Rattle.redo_spec.specs.Log.{Log, IsLog};
ghost use Rattle.redo_text.specs.Showing.{text_of_log, records_text};
ghost use Rattle.redo_text.specs.Text.{log_said};

use redo_lines::{a_line_says_what_fits, a_printed_number_is_read, a_printed_vector_is_read};
use redo_vec::a_spelled_record_is_read;
use redo_wire::{pieces_do_not_matter, pieces_give_the_records};

/// A log that has a spelling and a record is said by the text that is printed for it.
pub fn a_shown_log_is_said()
    ensures said { (log : Log) → IsLog log → 1 ≤ length log.records → log_said (text_of_log log) ≡ Ok log }
{
    a_printed_vector_is_read();
    a_printed_number_is_read();
}

/// What a text says is a log that has a spelling.
pub fn a_text_says_a_log()
    ensures fits { (text : List ℕ) (log : Log) → AreBytes text → log_said text ≡ Ok log → IsLog log }
{
    a_line_says_what_fits();
}

/// In which pieces a log comes is no matter to its text, and behind a fault nothing is shown.
pub fn pieces_are_shown_as_one()
    ensures two { (log : Shown) (a b : List ℕ) → pieces_text log ((a ++ b) ∷ []) ≡ pieces_text log (a ∷ b ∷ []) }
    ensures silent { (log : Shown) (pieces : List (List ℕ)) → log.place.ended ≡ true → pieces_text log pieces ≡ [] }
    ensures same { (head : Header) (pieces : List (List ℕ)) →
        pieces_text (shown_at head) pieces ≡ pieces_text (shown_at head) (concat pieces ∷ []) }
{
    pieces_do_not_matter();
}

/// A fault is shown of a log exactly where its records, cut off and decoded, end with one; in which pieces it comes is no matter.
pub fn a_fault_is_shown_where_there_is_one()
    ensures exact { (head : Header) (pieces : List (List ℕ)) →
        pieces_ended (shown_at head) pieces ≡ is_some (records_in head head.count (concat pieces)).cause }
    ensures two { (log : Shown) (a b : List ℕ) → pieces_ended log ((a ++ b) ∷ []) ≡ pieces_ended log (a ∷ b ∷ []) }
    // A fault that was shown is not taken back.
    ensures kept { (log : Shown) (pieces : List (List ℕ)) → log.place.ended ≡ true → pieces_ended log pieces ≡ true }
{
    pieces_do_not_matter();
    pieces_give_the_records();
}

/// A log that has a spelling is shown, from its bytes behind the header, as the text that says its records, and without a fault.
pub fn a_spelled_log_is_shown()
    ensures shown { (log : Log) (pieces : List (List ℕ)) → IsLog log → concat pieces ≡ flat_map record_bytes log.records →
        pieces_text (shown_at log.head) pieces ≡ records_text [] log.records }
    ensures whole { (log : Log) (pieces : List (List ℕ)) → IsLog log → concat pieces ≡ flat_map record_bytes log.records →
        pieces_ended (shown_at log.head) pieces ≡ false }
{
    a_spelled_record_is_read();
    pieces_give_the_records();
}
