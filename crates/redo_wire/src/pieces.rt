//! Laws over any list of pieces: that it does not matter in which pieces a log comes, and that what its pieces give
//! are its records. They are laws over what `Cutter::feed` and `Cutter::finish` give.
ghost use Rattle.std.specs.Prelude.{◌≡◌, ◌-◌, ◌≤◌, ◌++◌, ℕ, List};
ghost use Rattle.std.specs.List.{concat};
ghost use Rattle.std.specs.Option.{option_or};
ghost use Rattle.redo_spec.specs.declared.header.Header.{Header};
ghost use Rattle.redo_spec.specs.Redo.{records_in};
ghost use Rattle.redo_wire.specs.Stream.{Stream, stream_at, cut_off, cut_of_piece, stream_after, joined_cut, as_cut, run_of, end_fault};
ghost use Rattle.redo_wire.specs.Records.{missing_after, records_of_raws};

/// What a log gives that comes in two pieces is what it gives in one, and so is what is left of it. So it does
/// not matter how its bytes are cut.
pub fn pieces_do_not_matter()
    ensures given { (s : Stream) (a b : List ℕ) → cut_of_piece s (a ++ b) ≡
        joined_cut (cut_of_piece s a) (cut_of_piece (stream_after s a) b) }
    ensures left { (s : Stream) (a b : List ℕ) → stream_after s (a ++ b) ≡ stream_after (stream_after s a) b }
    // Any list of pieces, from the first record on: the records up to the first fault of the bytes as a whole.
    ensures pieces { (h : Header) (rec at done : ℕ) (pieces : List (List ℕ)) →
        as_cut (run_of (stream_at h rec at done) pieces) ≡
        cut_off h (h.count - done) (record { rec = rec; at = at; done = done }) (concat pieces) }
    // And the end of the bytes tells what it tells behind the bytes as a whole.
    ensures end { (h : Header) (rec at done : ℕ) (pieces : List (List ℕ)) →
        end_fault (run_of (stream_at h rec at done) pieces).stream ≡
        missing_after h (cut_off h (h.count - done) (record { rec = rec; at = at; done = done }) (concat pieces)) }
{}

/// The records of a log, behind `done` of them, are those that its pieces give, decoded. They end with the fault that
/// a piece or the end of the bytes tells, unless a record does not decode before.
pub fn pieces_give_the_records()
    ensures records { (h : Header) (rec at done : ℕ) (pieces : List (List ℕ)) → done ≤ h.count →
        let run = run_of (stream_at h rec at done) pieces in
        records_in h (h.count - done) (concat pieces) ≡ records_of_raws run.raws (option_or run.cause (end_fault run.stream)) }
{}
