//! What holds of a window over any list of calls.

ghost use Rattle.std.specs.Prelude.{◌≡◌, ◌+◌, ℕ, List, map, length, IfSome};
ghost use Rattle.redo_wire.specs.declared.raw.Raw.{Raw};
ghost use Rattle.preparers.specs.Pieces.{piece_of};
ghost use Rattle.preparers.specs.Pending.{Pending, none_pending, least_raw, greatest_raw, drawn_piece, IsWindow};
ghost use Rattle.preparers.specs.Steps.{Step, after_step, after_steps, pieces_of_steps, count_up, IsWindowOf, IsStepOf, AreStepsOf};

/// Whatever the order in which records are lent and prepared, the pieces are drawn in the order of their numbers,
/// each once and none left out.
pub fn pieces_are_drawn_in_order()
    ensures numbers { (steps : List Step) (next : ℕ) → (let pieces = pieces_of_steps steps (none_pending next) in
        map (λ piece. piece.rec) pieces ≡ count_up next (length pieces)) }
    // All below the first that is not drawn.
    ensures all { (steps : List Step) (next : ℕ) → (after_steps steps (none_pending next)).first ≡ next +
        length (pieces_of_steps steps (none_pending next)) }
    // Where each record that is posted is the one of its number, and each piece that comes back its decoding.
    ensures decoded { (raws : ℕ → Raw) (steps : List Step) (next : ℕ) → AreStepsOf raws steps →
        (let pieces = pieces_of_steps steps (none_pending next) in
        pieces ≡ map (λ n. piece_of (raws n)) (count_up next (length pieces))) }
{}

/// A window goes on to stand for the records of a redo, one for each number, and what it lends and gives is theirs.
pub fn the_window_stands_for_its_records()
    ensures begun { (raws : ℕ → Raw) (next : ℕ) → IsWindowOf raws (none_pending next) }
    ensures kept { (raws : ℕ → Raw) (step : Step) (w : Pending) → IsWindowOf raws w → IsStepOf raws step →
        IsWindowOf raws (after_step step w) }
    ensures lent { (raws : ℕ → Raw) (w : Pending) → IsWindow w → IsWindowOf raws w →
        IfSome (least_raw w) (λ raw. raw ≡ raws raw.rec) }
    ensures lent_last { (raws : ℕ → Raw) (w : Pending) → IsWindow w → IsWindowOf raws w →
        IfSome (greatest_raw w) (λ raw. raw ≡ raws raw.rec) }
    ensures drawn { (raws : ℕ → Raw) (w : Pending) → IsWindowOf raws w →
        IfSome (drawn_piece w) (λ piece. piece ≡ piece_of (raws w.first)) }
{}
