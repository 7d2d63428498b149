//! The law of long scripts.
ghost use Rattle.std.specs.Prelude.{◌≡◌, ◌+◌, ℕ, List, take};
ghost use Rattle.script.specs.declared.limits.TheConstants.{MAX_BYTES};
ghost use Rattle.script.specs.Lines.{script_of};

/// Of a script no more than `MAX_BYTES + 1` bytes count: what stands behind them changes nothing. It does nothing.
pub fn a_long_script_is_refused_alike()
    ensures alike { (bytes : List ℕ) → script_of (take (MAX_BYTES + 1) bytes) ≡ script_of bytes }
{}
