//! Worked examples: the texts of changes. Each clause holds by computing both sides.
ghost use Rattle.std.specs.Prelude.{◌≡◌, ◌++◌, [], ◌∷◌, codes, negsuc};
ghost use Rattle.rl_value.specs.declared.value.Value.TheVariants.{Null, Number, Text, Raw};
ghost use Rattle.redo_vec.specs.declared.change.Op.TheVariants.{Insert, Update, Delete};
ghost use Rattle.redo_spec.specs.Worked.{n};
ghost use Rattle.sql_text.specs.SqlText.{sql_redo, sql_undo};
ghost use Rattle.sql_text.specs.Worked.{mixed, mixed_change};

/// Values of each kind in both texts; an update is taken back by the values after it.
pub fn values_are_spelled_in_sql()
    ensures insert { sql_redo (mixed ∷ []) (mixed_change Insert []
        ((0, Number (negsuc 11)) ∷ (1, Text (7 ∷ 39 ∷ [])) ∷ (2, Raw (0 ∷ 0xaf ∷ [])) ∷ []))
        ≡ (codes "insert into \"T\".\"A\"(\"N\",\"X$\",\"R#\") values "
        ++ codes "(-12,UTL_RAW.CAST_TO_VARCHAR2(HEXTORAW('0727')),HEXTORAW('00AF'));") }
    ensures delete { sql_redo (mixed ∷ []) (mixed_change Delete
        ((0, n 0) ∷ (1, Text (codes "it's")) ∷ (2, Null) ∷ []) [])
        ≡ codes "delete from \"T\".\"A\" where \"N\" = 0 and \"X$\" = 'it''s' and \"R#\" IS NULL;" }
    ensures undo_delete { sql_undo (mixed ∷ []) (mixed_change Delete
        ((0, n 0) ∷ (1, Text (codes "it's")) ∷ (2, Null) ∷ []) [])
        ≡ codes "insert into \"T\".\"A\"(\"N\",\"X$\",\"R#\") values (0,'it''s',NULL);" }
    ensures undo_key { sql_undo (mixed ∷ []) (mixed_change Update
        ((0, n 1) ∷ (1, Text (codes "a")) ∷ []) ((1, Text (codes "b")) ∷ []))
        ≡ codes "update \"T\".\"A\" set \"X$\" = 'a' where \"N\" = 1 and \"X$\" = 'b';" }
    ensures unknown { sql_redo [] (mixed_change Delete [] []) ≡ [] }
{}
