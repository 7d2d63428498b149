//! Worked examples: the contents of small logs, from their records or their bytes to the printed lines.
//!
//! Each function here has an empty body; its clauses hold by computing both sides. The logs are those of `specs/Worked.antt`,
//! here and in `redo_spec`.
ghost use Rattle.std.specs.Prelude.{◌≡◌, [], ◌∷◌, ◌++◌, codes, Some, None, true, false};
ghost use Rattle.rl_value.specs.declared.cause.Cause.TheVariants.{Cut};
ghost use Rattle.rl_value.specs.declared.cause.CutFault.TheVariants.{Truncated};
ghost use Rattle.rl_value.specs.declared.verdict.Stop.TheVariants.{Drained, Malformed};
ghost use Rattle.redo_spec.specs.Worked.{first_bytes, absent_row, undone_update, locked_key, cut_short};
ghost use Rattle.log_miner.specs.Worked.{emp_mined, emp_given, logs_mined, rolled_back_64, crossed};

/// An update with a quote in a text and with Nulls, in both modes.
pub fn an_update_is_undone_by_its_old_values()
    ensures plain { emp_mined false absent_row Drained
        ≡ codes "101 2.1 1.1.1 START"
        ∷ (codes "101 2.2 1.1.1 UPDATE HR.EMP update \"HR\".\"EMP\" set \"NAME\" = NULL, \"EMAIL\" = 'o@x' where "
        ++ codes "\"ID\" = 1 and \"NAME\" = 'O''Neil' and \"EMAIL\" IS NULL; | update \"HR\".\"EMP\" set "
        ++ codes "\"NAME\" = 'O''Neil', \"EMAIL\" = NULL where \"ID\" = 1 and \"NAME\" IS NULL and \"EMAIL\" = "
        ++ codes "'o@x';")
        ∷ codes "102 3.1 1.1.1 COMMIT"
        ∷ codes "END 102 1 DRAINED" ∷ [] }
    ensures committed { emp_mined true absent_row Drained ≡ emp_mined false absent_row Drained }
{}

/// In committed mode a transaction that is rolled back has no line.
pub fn a_rolled_back_transaction_is_not_committed()
    ensures committed { emp_mined true rolled_back_64 Drained
        ≡ codes "104 68.1 2.1.1 START"
        ∷ (codes "104 69.1 2.1.1 INSERT HR.EMP insert into \"HR\".\"EMP\"(\"ID\",\"NAME\",\"EMAIL\") values "
        ++ codes "(1,'New',NULL); | delete from \"HR\".\"EMP\" where \"ID\" = 1 and \"NAME\" = 'New' and "
        ++ codes "\"EMAIL\" IS NULL;")
        ∷ codes "105 70.1 2.1.1 COMMIT"
        ∷ codes "END 105 1 DRAINED" ∷ [] }
{}

/// The line of an UNDO names the change that it takes back; in committed mode neither has a line.
pub fn an_undone_change_is_named()
    ensures plain { emp_mined false undone_update Drained
        ≡ codes "101 2.1 1.1.1 START"
        ∷ (codes "101 2.2 1.1.1 INSERT HR.EMP insert into \"HR\".\"EMP\"(\"ID\",\"NAME\",\"EMAIL\") values "
        ++ codes "(1,'Ann',NULL); | delete from \"HR\".\"EMP\" where \"ID\" = 1 and \"NAME\" = 'Ann' and "
        ++ codes "\"EMAIL\" IS NULL;")
        ∷ (codes "102 3.1 1.1.1 UPDATE HR.EMP update \"HR\".\"EMP\" set \"NAME\" = 'Bob' where \"ID\" = 1 and "
        ++ codes "\"NAME\" = 'Ann'; | update \"HR\".\"EMP\" set \"NAME\" = 'Ann' where \"ID\" = 1 and \"NAME\" = "
        ++ codes "'Bob';")
        ∷ codes "103 4.1 1.1.1 UNDO 3.1"
        ∷ codes "104 5.1 1.1.1 COMMIT"
        ∷ codes "END 104 1 DRAINED" ∷ [] }
    ensures committed { emp_mined true undone_update Drained
        ≡ codes "101 2.1 1.1.1 START"
        ∷ (codes "101 2.2 1.1.1 INSERT HR.EMP insert into \"HR\".\"EMP\"(\"ID\",\"NAME\",\"EMAIL\") values "
        ++ codes "(1,'Ann',NULL); | delete from \"HR\".\"EMP\" where \"ID\" = 1 and \"NAME\" = 'Ann' and "
        ++ codes "\"EMAIL\" IS NULL;")
        ∷ codes "104 5.1 1.1.1 COMMIT"
        ∷ codes "END 104 1 DRAINED" ∷ [] }
{}

/// Committed transactions stand in the order of their COMMITs, and each line has the SCN of its own record.
pub fn commits_are_in_order()
    ensures committed { emp_mined true crossed Drained
        ≡ codes "102 3.1 2.1.1 START"
        ∷ (codes "102 3.2 2.1.1 INSERT HR.EMP insert into \"HR\".\"EMP\"(\"ID\",\"NAME\",\"EMAIL\") values "
        ++ codes "(2,NULL,NULL); | delete from \"HR\".\"EMP\" where \"ID\" = 2 and \"NAME\" IS NULL and "
        ++ codes "\"EMAIL\" IS NULL;")
        ∷ codes "105 6.1 2.1.1 COMMIT"
        ∷ codes "101 2.1 1.1.1 START"
        ∷ (codes "101 2.2 1.1.1 INSERT HR.EMP insert into \"HR\".\"EMP\"(\"ID\",\"NAME\",\"EMAIL\") values "
        ++ codes "(1,NULL,NULL); | delete from \"HR\".\"EMP\" where \"ID\" = 1 and \"NAME\" IS NULL and "
        ++ codes "\"EMAIL\" IS NULL;")
        ∷ (codes "103 4.2 1.1.1 UPDATE HR.EMP update \"HR\".\"EMP\" set \"ID\" = 5 where \"ID\" = 1; | update "
        ++ codes "\"HR\".\"EMP\" set \"ID\" = 1 where \"ID\" = 5;")
        ∷ codes "106 7.1 1.1.1 COMMIT"
        ∷ codes "END 106 2 DRAINED" ∷ [] }
    ensures given { emp_mined true crossed Drained ≡ emp_given true crossed ++ codes "END 106 2 DRAINED" ∷ [] }
    ensures given_plain { emp_mined false crossed Drained ≡ emp_given false crossed ++ codes "END 106 2 DRAINED" ∷ [] }
{}

/// A record that may not follow has no line, also not of its vectors before the refused one; nor has one that is cut short.
pub fn a_bad_record_has_no_line()
    ensures locked { emp_mined false locked_key Drained
        ≡ codes "101 2.1 1.1.1 START"
        ∷ (codes "101 2.2 1.1.1 INSERT HR.EMP insert into \"HR\".\"EMP\"(\"ID\",\"NAME\",\"EMAIL\") values "
        ++ codes "(1,NULL,NULL); | delete from \"HR\".\"EMP\" where \"ID\" = 1 and \"NAME\" IS NULL and "
        ++ codes "\"EMAIL\" IS NULL;")
        ∷ codes "END 99 0 MALFORMED 3 LOCK HR.EMP 0 (1) 1.1.1" ∷ [] }
    ensures locked_committed { emp_mined true locked_key Drained ≡ codes "END 99 0 MALFORMED 3 LOCK HR.EMP 0 (1) 1.1.1" ∷ [] }
    ensures cut { emp_mined true cut_short (Malformed 5 (Cut Truncated))
        ≡ codes "101 2.1 1.1.1 START"
        ∷ (codes "101 2.2 1.1.1 INSERT HR.EMP insert into \"HR\".\"EMP\"(\"ID\",\"NAME\",\"EMAIL\") values "
        ++ codes "(7,NULL,NULL); | delete from \"HR\".\"EMP\" where \"ID\" = 7 and \"NAME\" IS NULL and "
        ++ codes "\"EMAIL\" IS NULL;")
        ∷ codes "102 3.1 1.1.1 COMMIT"
        ∷ codes "END 102 1 MALFORMED 5 TRUNCATED" ∷ [] }
{}

/// One log from its bytes, and the logs that are absent.
pub fn logs_are_mined_from_their_bytes()
    ensures one { logs_mined false (λ seq. Some first_bytes) 1 1
        ≡ codes "101 2.1 1.2.3 START"
        ∷ codes "101 2.2 1.2.3 INSERT T.A insert into \"T\".\"A\"(\"ID\") values (7); | delete from \"T\".\"A\" where \"ID\" = 7;"
        ∷ codes "102 3.1 1.2.3 COMMIT"
        ∷ codes "END 102 1 DRAINED" ∷ [] }
    ensures sequence { logs_mined true (λ seq. Some first_bytes) 1 2
        ≡ codes "101 2.1 1.2.3 START"
        ∷ codes "101 2.2 1.2.3 INSERT T.A insert into \"T\".\"A\"(\"ID\") values (7); | delete from \"T\".\"A\" where \"ID\" = 7;"
        ∷ codes "102 3.1 1.2.3 COMMIT"
        ∷ codes "END 102 1 MALFORMED 4 HEADER SEQUENCE" ∷ [] }
    ensures absent { logs_mined false (λ seq. None) 3 7 ≡ codes "END 0 0 GAP 3 3" ∷ [] }
    ensures refused { logs_mined false (λ seq. Some first_bytes) 2 2 ≡ codes "END 0 0 MALFORMED 1 HEADER SEQUENCE" ∷ [] }
{}
