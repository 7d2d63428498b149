//! The reading and the spelling of records agree: what the crates above may use of it.
//!
//! Each function here has an empty body; its clauses are the law.
ghost use Rattle.std.specs.Prelude.{◌≡◌, ◌++◌, [], Ok, List, ℕ};
ghost use Rattle.redo_vec.specs.Cutting.{first_record};
ghost use Rattle.redo_vec.specs.Ranges.{AreBytes, IsRecord, IsVector};
ghost use Rattle.redo_vec.specs.Reading.{record_at, vector_at};
ghost use Rattle.redo_vec.specs.Spelling.{record_bytes, vector};
ghost use Rattle.redo_vec.specs.declared.redo_rec.RedoRec.{RedoRec};
ghost use Rattle.redo_vec.specs.declared.vector.Vector.{Vector};

/// A record that has a spelling is read from it.
pub fn a_spelled_record_is_read()
    ensures read { (rec : RedoRec) → IsRecord rec → record_at (record_bytes rec) ≡ Ok rec }
{}

/// What is read from bytes that the cutter takes as one record has a spelling, and these bytes are it.
pub fn a_read_record_is_spelled()
    ensures fits { (bytes : List ℕ) (rec : RedoRec) → AreBytes bytes → first_record bytes ≡ Ok (bytes, []) →
        record_at bytes ≡ Ok rec → IsRecord rec }
    ensures spelled { (bytes : List ℕ) (rec : RedoRec) → AreBytes bytes → first_record bytes ≡ Ok (bytes, []) →
        record_at bytes ≡ Ok rec → bytes ≡ record_bytes rec }
{}

/// A vector that has a spelling is read from its front, whatever follows.
pub fn a_spelled_vector_is_read()
    ensures read { (size : ℕ) (v : Vector) (rest : List ℕ) → IsVector v → vector_at size (vector v ++ rest) ≡ Ok (v, rest) }
{}

/// What is read from the front of bytes has a spelling, and the bytes are it and what is left.
pub fn a_read_vector_is_spelled()
    ensures fits { (size : ℕ) (bytes : List ℕ) (found : Vector × List ℕ) → AreBytes bytes → vector_at size bytes ≡ Ok found →
        IsVector found.0 }
    ensures spelled { (size : ℕ) (bytes : List ℕ) (found : Vector × List ℕ) → AreBytes bytes → vector_at size bytes ≡ Ok found →
        bytes ≡ vector found.0 ++ found.1 }
{}
