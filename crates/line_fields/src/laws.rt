//! Printing and reading of numbers agree: what the crates above may use of it.
//!
//! The function has an empty body; its clauses are the law.
ghost use Rattle.std.specs.Prelude.{◌≡◌, ◌≤◌, ◌<◌, ◌^◌, ◌∷◌, [], Ok, List, ℕ, true};
ghost use Rattle.std.specs.Fmt.{decimal};
ghost use Rattle.std.specs.List.{list_all};
ghost use Rattle.rl_base.specs.Lines.{is_line};
ghost use Rattle.rl_value.specs.Text.{is_letter};
ghost use Rattle.line_fields.specs.Fields.{number_said};
ghost use Rattle.line_fields.specs.Words.{split, joined, space};

/// A number is read from its decimal, also behind a keyword on a line of their own.
pub fn a_printed_number_is_read()
    ensures read { (most number : ℕ) → number ≤ most → number < 2 ^ 64 → number_said most (decimal number) ≡ Ok number }
    ensures words { (keyword : List ℕ) (number : ℕ) → list_all is_letter keyword ≡ true → number < 2 ^ 64 →
        split space (joined space (keyword ∷ decimal number ∷ [])) ≡ keyword ∷ decimal number ∷ [] }
    ensures one_line { (keyword : List ℕ) (number : ℕ) → list_all is_letter keyword ≡ true → number < 2 ^ 64 →
        is_line (joined space (keyword ∷ decimal number ∷ [])) ≡ true }
{}
