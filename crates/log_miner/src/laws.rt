//! Laws of the contents, each stated by a public function with an empty body.
ghost use Rattle.std.specs.Prelude.{◌≡◌, ◌-◌, List, ◌∷◌, true, false, None};
ghost use Rattle.redo_vec.specs.declared.redo_rec.RedoRec.{RedoRec};
ghost use Rattle.redo_spec.specs.declared.header.Header.{Header};
ghost use Rattle.redo_spec.specs.History.{Entry, no_history};
ghost use Rattle.redo_spec.specs.Standing.{beginning};
ghost use Rattle.redo_spec.specs.Law.{admission};
ghost use Rattle.log_miner.specs.MinedLines.{plain_lines, committed_lines};
ghost use Rattle.log_miner.specs.Mining.{unbegun, records_given};

/// What a miner gives, record by record, are the lines of the contents: in plain mode, and in committed mode where the
/// records may all follow.
pub fn a_miner_gives_the_contents()
    ensures plain { (h : Header) (rec : RedoRec) (entries : List Entry) →
        records_given ((h, rec) ∷ entries) (unbegun false)
        ≡ plain_lines (beginning h.seq (h.first - 1)) (no_history 0) ((h, rec) ∷ entries) }
    ensures committed { (h : Header) (rec : RedoRec) (entries : List Entry) →
        (admission (beginning h.seq (h.first - 1)) (no_history 0) ((h, rec) ∷ entries)).fault ≡ None →
        records_given ((h, rec) ∷ entries) (unbegun true)
        ≡ committed_lines (beginning h.seq (h.first - 1)) ((h, rec) ∷ entries)
        (admission (beginning h.seq (h.first - 1)) (no_history 0) ((h, rec) ∷ entries)).history.commits.made }
{}
