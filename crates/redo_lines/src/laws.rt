//! Printing and reading agree: what the crates above may use of it.
//!
//! Each function here has an empty body; its clauses are the law.
ghost use Rattle.std.specs.Prelude.{◌≡◌, ◌≤◌, Ok, List, ℕ, true};
ghost use Rattle.rl_base.specs.Lines.{is_line};
ghost use Rattle.redo_vec.specs.Ranges.{AreBytes, IsVector};
ghost use Rattle.redo_vec.specs.declared.table.TableRow.{TableRow};
ghost use Rattle.redo_vec.specs.declared.vector.Vector.{Vector};
ghost use Rattle.line_fields.specs.Fields.{number_said};
ghost use Rattle.line_fields.specs.Known.{HaveIds, known_after};
ghost use Rattle.redo_lines.specs.Printing.{vector_words, line_of_vector};
ghost use Rattle.redo_lines.specs.Reading.{vector_of_line};
ghost use Rattle.line_fields.specs.Words.{split, space};

/// A vector is read from the line that is printed for it, whatever tables are known.
pub fn a_printed_vector_is_read()
    ensures read { (tables : List TableRow) (vector : Vector) → IsVector vector →
        vector_of_line tables (line_of_vector tables vector) ≡ Ok vector }
    // The line is cut into the words that it was put together from, and it is one line.
    ensures words { (tables : List TableRow) (vector : Vector) → IsVector vector →
        split space (line_of_vector tables vector) ≡ vector_words tables vector }
    ensures one_line { (tables : List TableRow) (vector : Vector) → IsVector vector →
        is_line (line_of_vector tables vector) ≡ true }
{}

/// What a line says has a spelling, where the tables that are known have ids of 32 bits, and those known behind it have them too.
pub fn a_line_says_what_fits()
    ensures vector_fits { (tables : List TableRow) (line : List ℕ) (vector : Vector) → HaveIds tables → AreBytes line →
        vector_of_line tables line ≡ Ok vector → IsVector vector }
    ensures tables_fit { (tables : List TableRow) (vector : Vector) → HaveIds tables → IsVector vector →
        HaveIds (known_after tables vector) }
    ensures number_fits { (most number : ℕ) (word : List ℕ) → number_said most word ≡ Ok number → number ≤ most }
{}
