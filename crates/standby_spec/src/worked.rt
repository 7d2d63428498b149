//! Worked examples: the layout of a state, what changes of it leave, and what is loaded.
//!
//! Each function here has an empty body; its clauses hold by computing both sides. The states are those of `specs/Worked.antt`.
ghost use Rattle.std.specs.Prelude.{◌≡◌, [], ◌∷◌, ◌++◌, codes, Some, None, replicate};
ghost use Rattle.rl_value.specs.declared.value.Value.TheVariants.{Null, Text};
ghost use Rattle.rl_ports.specs.Store.{after_batch};
ghost use Rattle.rl_ports.specs.declared.batch.Item.TheVariants.{Put, Drop};
ghost use Rattle.redo_vec.specs.Spelling.{be32, be64};
ghost use Rattle.redo_spec.specs.Skips.{Transaction};
ghost use Rattle.redo_spec.specs.Worked.{emp, audit, one_of, n, first_log};
ghost use Rattle.skip_guard.specs.declared.guard.Level.TheVariants.{All};
ghost use Rattle.standby_spec.specs.KeptState.{base_of};
ghost use Rattle.standby_spec.specs.Layout.{pairs_of, row_place, log_item, table_item, skip_item, mark_item, applied_item};
ghost use Rattle.standby_spec.specs.Writings.{state_after, AddLog, AddSkip, SetLevel, PutRow, Publish, KeepMark, created_state, created_items};
ghost use Rattle.standby_spec.specs.Refusals.{base_refusal, local_refusal, publish_refusal, skip_refusal, mark_refusal, Exists, Taken, Twice, NotNext, Early};
ghost use Rattle.standby_spec.specs.Loading.{loaded, Image, Fresh, Bad};
ghost use Rattle.standby_spec.specs.HasLayout.{HasLayout, LeavesLayout};
ghost use Rattle.standby_spec.specs.StandbyRedo.{commits_of};
ghost use Rattle.standby_spec.specs.Checkpoint.{place_at, first_mark, IsMarkOf};
ghost use Rattle.standby_spec.specs.NextCommit.{IsNextCommit};
ghost use Rattle.standby_spec.specs.Fits.{FitsStill, Fits};
ghost use Rattle.standby_spec.specs.Lawful.{Belongs};
ghost use Rattle.standby_spec.specs.Publishing.{PublisherFits};
ghost use Rattle.standby_spec.specs.Worked.{sample, sample_mark, log_of, FollowsOn, moved_email, doubled_email, drop_emp, put_emp, load_spoiled};
ghost use Rattle.standby_spec.specs.Worked.{logs_of, standby_of, side_log, side_mark, early_mark, two_changes, standby_before, standby_after, publisher_before};

/// A state is loaded from its pairs, and nothing is fresh.
pub fn states_are_loaded()
    ensures sample { loaded (pairs_of sample) ≡ Image sample }
    ensures fresh { loaded [] ≡ Fresh }
    ensures created { loaded (pairs_of (created_state (log_of 1 100 200) (emp ∷ []))) ≡
        Image (created_state (log_of 1 100 200) (emp ∷ [])) }
    ensures other_mark { loaded (pairs_of (record sample { mark = Some (record sample_mark { n = 1 }) })) ≡ Image sample }
    ensures other_area { loaded (after_batch (Put 9 (codes "X") [] ∷ []) (pairs_of sample)) ≡ Image sample }
{}

/// The sample has a layout, and a commit may be published over it.
pub fn a_state_has_a_layout()
    ensures sample { HasLayout sample }
    ensures publish { LeavesLayout (Publish 105 moved_email) sample }
{}

/// What each call that writes leaves of the pairs are the pairs of the state after it.
#[tactic(auto, unfolding(crate::specs::Layout::pairs_of))]
pub fn changes_follow_on()
    ensures create { after_batch (created_items (log_of 1 100 200) (emp ∷ audit ∷ [])) [] ≡
        pairs_of (created_state (log_of 1 100 200) (emp ∷ audit ∷ [])) }
    ensures log { FollowsOn (AddLog (log_of 2 200 210)) sample }
    ensures skip { FollowsOn (AddSkip (Transaction (one_of 3))) sample }
    ensures level { FollowsOn (SetLevel All) sample }
    ensures row { FollowsOn (PutRow 2 (n 1 ∷ Null ∷ [])) sample }
    ensures publish { FollowsOn (Publish 105 moved_email) sample }
    ensures gone { FollowsOn (Publish 105 (drop_emp 1 ∷ drop_emp 7 ∷ [])) sample }
    ensures without { FollowsOn (Publish 105 doubled_email) sample }
    ensures without_writes { state_after (Publish 105 doubled_email) sample ≡ state_after (Publish 105 []) sample }
    ensures mark { FollowsOn (KeepMark (record sample_mark { q = 3 })) sample }
{}

/// Why calls that write are refused.
pub fn changes_are_refused()
    ensures exists { base_refusal sample 1 (n 1 ∷ Null ∷ Null ∷ []) ≡ Some Exists }
    ensures base_taken { base_refusal sample 1 (n 2 ∷ Null ∷ Text (codes "x@a") ∷ []) ≡ Some Taken }
    ensures taken { local_refusal sample 1 (n 2 ∷ Null ∷ Text (codes "x@a") ∷ []) ≡ Some Taken }
    ensures own { local_refusal sample 1 (n 1 ∷ Null ∷ Text (codes "x@a") ∷ []) ≡ None }
    ensures not_next { publish_refusal sample 4 [] ≡ Some (NotNext 2) }
    ensures next { publish_refusal sample 3 doubled_email ≡ None }
    ensures twice { skip_refusal sample (Transaction (one_of 2)) ≡ Some Twice }
    ensures early { mark_refusal sample (record sample_mark { n = 3 }) ≡ Some (Early 2) }
{}

/// The first key that is not in the layout.
pub fn first_bad_keys_are_told()
    ensures no_standby { load_spoiled (Drop 1 (codes "S") ∷ []) ≡ Bad 2 (be32 1) }
    ensures other_key { load_spoiled (Put 1 (codes "R") [] ∷ []) ≡ Bad 1 (codes "R") }
    ensures no_first_log { load_spoiled (Drop 2 (be32 1) ∷ []) ≡ Bad 1 (codes "S") }
    ensures log_of_another { load_spoiled (log_item (record (log_of 4 300 400)
        { head = record { seq = 4; dbid = 8; first = 300; next = 400; count = 1 } }) ∷ []) ≡ Bad 2 (be32 4) }
    ensures table_twice { load_spoiled (table_item (record emp { id = 5 }) ∷ []) ≡ Bad 3 (be32 5) }
    ensures rule_gap { load_spoiled (Drop 4 (be32 1) ∷ []) ≡ Bad 4 (be32 2) }
    ensures rule_twice { load_spoiled (skip_item 3 (record { rule = Transaction (one_of 2); from = 2 }) ∷ []) ≡ Bad 4 (be32 3) }
    ensures two_owners { load_spoiled (Put 5 (row_place 1 (n 2 ∷ [])) (1 ∷ be64 2 ++ 0 ∷ 2 ∷ 0 ∷ 3 ∷ codes "x@a") ∷ []) ≡
        Bad 5 (row_place 1 (n 2 ∷ [])) }
    ensures short_row { load_spoiled (Put 5 (row_place 1 (n 2 ∷ [])) (1 ∷ be64 2 ++ 0 ∷ []) ∷ []) ≡
        Bad 5 (row_place 1 (n 2 ∷ [])) }
    ensures other_row { load_spoiled (Put 5 (row_place 1 (n 2 ∷ [])) (1 ∷ be64 3 ++ 0 ∷ 0 ∷ []) ∷ []) ≡
        Bad 5 (row_place 1 (n 2 ∷ [])) }
    ensures nothing_applied { load_spoiled (Drop 6 (codes "A") ∷ Put 6 (codes "0") [] ∷ []) ≡ Bad 6 [] }
    ensures far_count { load_spoiled (Put 6 (codes "A") (64 ∷ replicate 15 0) ∷ []) ≡ Bad 6 (codes "A") }
    ensures fewer_commits { load_spoiled (applied_item 0 99 ∷ []) ≡ Bad 7 (codes "M") }
    ensures mark_in_no_log { load_spoiled (mark_item (record sample_mark
        { place = record { seq = 2; at = 120; done = 2; rec = 2 } }) ∷ []) ≡ Bad 7 (codes "M") }
{}

/// The place behind a record, and the marks of a run. A mark that is taken again before anything more is built is the same.
pub fn marks_are_taken()
    ensures first_place { place_at (logs_of first_log) (standby_of first_log) 1 ≡ record { seq = 1; at = 75; done = 1; rec = 1 } }
    ensures last_place { place_at (logs_of first_log) (standby_of first_log) 3 ≡ record { seq = 1; at = 146; done = 3; rec = 3 } }
    ensures restart { early_mark.q ≡ 2 }
    ensures mining { early_mark.m ≡ 5 }
    ensures before { early_mark.before ≡ 0 }
    ensures restart_scn { early_mark.q_scn ≡ 101 }
    ensures mining_scn { early_mark.m_scn ≡ 104 }
    ensures again { side_mark early_mark 2 1 ≡ early_mark }
    ensures right { IsMarkOf (logs_of side_log) (standby_of side_log) 1 early_mark }
    ensures none_live { (side_mark (first_mark 1 99 0) 7 3).q ≡ 7 }
    ensures waiting { (side_mark (first_mark 1 99 0) 7 1).q ≡ 2 }
{}

/// The standby that publishes its next commit fits.
pub fn the_next_commit_is_published()
    ensures next { IsNextCommit (base_of standby_before) [] (commits_of (logs_of two_changes) standby_before) 0 103
        (put_emp 1 (Text (codes "B")) Null ∷ []) }
    ensures before { FitsStill (base_of standby_before) (logs_of two_changes) standby_before }
    ensures after { Fits (base_of standby_before) (logs_of two_changes) 0 standby_after }
{}

/// The standby that was created from a log belongs to it, and a publisher that shows it fits.
pub fn the_standby_belongs_to_its_log()
    ensures belongs { Belongs (logs_of two_changes) standby_before }
    ensures publisher { PublisherFits (λ pairs. Some pairs) (λ pairs. 0) 0 (base_of standby_before) (logs_of two_changes)
        standby_before standby_before publisher_before }
{}
