//! Worked examples of workloads: their logs, and the lines of `load`.
//!
//! Each function here has an empty body; its clauses hold by computing both sides.
ghost use Rattle.std.specs.Prelude.{◌≡◌, [], ◌∷◌, codes};
ghost use Rattle.workload.specs.Accounts.{natural};
ghost use Rattle.workload.specs.Pairs.{change_records};
ghost use Rattle.workload.specs.Workload.{workload_logs, log_count, last_pair};
ghost use Rattle.workload.specs.Summary.{load_lines};
ghost use Rattle.workload.specs.Worked.{heads, values_given, ends};

/// One transaction opens four accounts.
pub fn one_transaction_loads()
    ensures lines { load_lines 0 1
        ≡ codes "LOAD 0 1" ∷ codes "COMMITS 1" ∷ codes "ROLLBACKS 0" ∷ codes "ROWS 4" ∷ codes "SUM 157"
        ∷ codes "END 7 1 DRAINED" ∷ [] }
    ensures head { heads (workload_logs 0 1) ≡ record { seq = 1; dbid = 1; first = 1; next = 8; count = 7 } ∷ [] }
    ensures given { values_given (workload_logs 0 1)
        ≡ (natural 1 ∷ natural 69 ∷ []) ∷ (natural 977 ∷ natural 18 ∷ []) ∷ (natural 997 ∷ natural 28 ∷ [])
        ∷ (natural 91 ∷ natural 42 ∷ []) ∷ [] }
    ensures ends { ends 0 1 ≡ (1, 0) }
{}

/// Transaction 1 is rolled back, so transaction 3, which has no B beside it, finds its accounts not open.
pub fn a_rollback_opens_no_account()
    ensures lines { load_lines 14 3
        ≡ codes "LOAD 14 3" ∷ codes "COMMITS 2" ∷ codes "ROLLBACKS 1" ∷ codes "ROWS 8" ∷ codes "SUM 434"
        ∷ codes "END 14 2 DRAINED" ∷ [] }
    ensures head { heads (workload_logs 14 3) ≡ record { seq = 1; dbid = 1; first = 1; next = 15; count = 14 } ∷ [] }
    ensures ends { ends 14 3 ≡ (2, 1) }
{}

/// A log ends after every 1,000 pairs, and each hundredth pair is a long one.
pub fn logs_have_1000_pairs()
    ensures none { log_count 0 ≡ 0 }
    ensures one { log_count 1 ≡ 1 }
    ensures full { log_count 2000 ≡ 1 }
    ensures more { log_count 2001 ≡ 2 }
    ensures most { log_count 100000 ≡ 50 }
    ensures ends { last_pair 2001 1 ≡ 1000 }
    ensures last { last_pair 2001 2 ≡ 1001 }
    ensures short { change_records 99 ≡ 4 }
    ensures long { change_records 100 ≡ 400 }
{}
