//! Laws of a run that is broken off: what its store holds. Each is stated by a public function with an empty body.
ghost use Rattle.std.specs.Prelude.{◌≡◌, ◌-◌, ℕ, List, Bool, false, IsTrue};
ghost use Rattle.std.specs.List.{list_all};
ghost use Rattle.rl_ports.specs.Faults.{Told};
ghost use Rattle.standby_spec.specs.KeptState.{KeptState, base_of};
ghost use Rattle.standby_spec.specs.StandbyRedo.{Archived};
ghost use Rattle.standby_spec.specs.HasLayout.{MayBeDone, MayAllBeDone};
ghost use Rattle.standby_spec.specs.Fits.{Fits};
ghost use Rattle.standby_spec.specs.Writings.{Writing, state_after, state_after_all};
ghost use Rattle.standby_spec.specs.Publishing.{Publishing, Failed, Does, DoesAll, is_of_run, PublisherFits};
ghost use Rattle.run_spec.specs.RunEnd.{IsFreeMark};
ghost use Rattle.run_spec.specs.Broken.{HoldsOnTheWay};

use rl_ports::Keeper;

/// Behind a run that was broken off the store holds a state on the way, where only the mark of its last commit is owed: what is
/// shown, where no commit of the store failed; else that, or what the call that failed was to make.
pub fn a_broken_run_leaves_a_state_on_the_way<K: Keeper>()
    ensures shown { (start distance : ℕ) (logs : Archived) (opening s : KeptState) (p : Publishing K) →
        PublisherFits K.holds K.faults start (base_of opening) logs opening s p → p.stopped ≡ false →
        IsFreeMark logs distance opening s.n (s.n - 1) s.mark → Told (K.holds p.keeper) (HoldsOnTheWay logs distance opening) }
    ensures failed { (alone : Bool) (start distance : ℕ) (logs : Archived) (opening s : KeptState) (old new : Publishing K)
        (w : Writing) → PublisherFits K.holds K.faults start (base_of opening) logs opening s old → old.stopped ≡ false →
        IsTrue (is_of_run w) → MayBeDone w s → Fits (base_of opening) logs opening.n (state_after w s) →
        IsFreeMark logs distance opening s.n (s.n - 1) s.mark →
        IsFreeMark logs distance opening (state_after w s).n ((state_after w s).n - 1) (state_after w s).mark →
        Does K.holds K.faults alone w s old new Failed → Told (K.holds new.keeper) (HoldsOnTheWay logs distance opening) }
    // The same of several writings that one commit of the store was to do.
    ensures group { (alone : Bool) (start distance : ℕ) (logs : Archived) (opening s : KeptState) (old new : Publishing K)
        (ws : List Writing) → PublisherFits K.holds K.faults start (base_of opening) logs opening s old →
        old.stopped ≡ false → IsTrue (list_all is_of_run ws) → MayAllBeDone ws s →
        Fits (base_of opening) logs opening.n (state_after_all ws s) → IsFreeMark logs distance opening s.n (s.n - 1) s.mark →
        IsFreeMark logs distance opening (state_after_all ws s).n ((state_after_all ws s).n - 1) (state_after_all ws s).mark →
        DoesAll K.holds K.faults alone ws s old new Failed → Told (K.holds new.keeper) (HoldsOnTheWay logs distance opening) }
{}
