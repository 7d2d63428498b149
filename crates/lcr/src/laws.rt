//! The reading and the spelling of chunks agree. Each function here only calls a law of `redo_vec`; its clause is the law.
ghost use Rattle.std.specs.Prelude.{◌≡◌, Some, true, ℕ, List};
ghost use Rattle.redo_spec.specs.History.{Placed};
ghost use Rattle.redo_vec.specs.Ranges.{AreBytes};
ghost use Rattle.lcr.specs.Chunks.{is_chunk};
ghost use Rattle.lcr.specs.Spilled.{ArePlaced, chunk_bytes, chunk_in};

use redo_vec::{a_read_vector_is_spelled, a_spelled_vector_is_read};

/// A chunk whose numbers fit their fields is read from its spelling.
pub fn a_spelled_chunk_is_read()
    ensures read { (ps : List Placed) → is_chunk ps ≡ true → ArePlaced ps → chunk_in (chunk_bytes ps) ≡ Some ps }
{
    a_spelled_vector_is_read();
}

/// What bytes are read as has them as its spelling.
pub fn a_read_chunk_is_spelled()
    ensures spelled { (bytes : List ℕ) (ps : List Placed) → AreBytes bytes → chunk_in bytes ≡ Some ps → bytes ≡ chunk_bytes ps }
{
    a_read_vector_is_spelled();
}
