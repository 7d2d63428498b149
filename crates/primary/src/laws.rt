//! Laws of the plain fold, each stated by a public function with an empty body.
ghost use Rattle.std.specs.Prelude.{◌≡◌, ℕ, ◌≤◌, List, [], ◌∷◌, ◌++◌, true};
ghost use Rattle.rl_value.specs.declared.verdict.Stop.{Stop};
ghost use Rattle.redo_spec.specs.History.{Entry};
ghost use Rattle.redo_spec.specs.Skips.{Skip};
ghost use Rattle.redo_spec.specs.Fold.{fold_of_redo};
ghost use Rattle.row_apply.specs.Soundness.{AreSound};
ghost use Rattle.primary.specs.declared.plain.Plain.{Plain};
ghost use Rattle.primary.specs.Cells.{AreOfCells};
ghost use Rattle.primary.specs.Progress.{Progress, RowsAreSound, NoneWait, progress_after_record, end_of};
ghost use Rattle.primary.specs.Starts.{IsStart, progress_after, fold_from, first_start};

/// The steps of a fold, record by record, are the fold of its records: the commits that they admit, over the start's rows.
pub fn the_evaluator_folds()
    ensures folds { (start : Plain) (skips : List Skip) (entries : List Entry) (stop : Stop) → start.before ≤ start.n →
        end_of stop (progress_after start skips entries) ≡ fold_from start skips entries stop }
{}

/// From the first record of a redo on, over empty tables and with no rules, it is the fold of the redo.
pub fn first_fold_is_of_the_redo()
    ensures same { (first base : ℕ) (entries : List Entry) (stop : Stop) →
        fold_from (first_start first base) [] entries stop ≡ fold_of_redo first base entries stop }
{}

/// Where a fold may begin over records, the rows that wait are sound as each of them comes.
pub fn rows_are_sound_at_each_record()
    ensures sound { (start : Plain) (skips : List Skip) (front : List Entry) (e : Entry) (back : List Entry) →
        IsStart start (front ++ e ∷ back) →
        RowsAreSound e (progress_after start skips front) }
{}

/// Where no rows wait, each record finds them sound, and none wait behind it.
pub fn no_rows_are_sound()
    ensures sound { (e : Entry) (p : Progress) → NoneWait p → RowsAreSound e p }
    ensures none { (skips : List Skip) (e : Entry) (p : Progress) → NoneWait p → NoneWait (progress_after_record skips e p) }
{}

/// Over the tables of a whole dictionary a fold may begin whatever records come.
pub fn a_whole_dictionary_stays()
    ensures any { (start : Plain) (entries : List Entry) → start.law.dict.finished ≡ true → IsStart start [] →
        IsStart start entries }
{}

/// A fold that may begin leaves sound tables. The new cells of a change rise by their columns, as those of each decoded one do.
pub fn a_fold_leaves_sound_tables()
    ensures sound { (start : Plain) (skips : List Skip) (entries : List Entry) (stop : Stop) → IsStart start entries →
        AreOfCells entries →
        AreSound (fold_from start skips entries stop).tables }
{}
