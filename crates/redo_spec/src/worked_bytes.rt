//! Worked examples of single bytes: each fault of a header, of a record's cut and of a vector's fields, at its place, and the
//! least and the greatest that is taken.
//!
//! Each function here has an empty body; its clauses hold by computing both sides. The bytes are those of
//! `specs/WorkedBytes.antt`.
ghost use Rattle.std.specs.Prelude.{◌≡◌, [], ◌∷◌, ◌++◌, slice_set, take, Some, None, Ok, Err};
ghost use Rattle.rl_value.specs.declared.cause.HeadFault.TheVariants as heads;
ghost use Rattle.rl_value.specs.declared.cause.CutFault.TheVariants.{Length, Count, Truncated};
ghost use Rattle.rl_value.specs.declared.cause.VecFault.TheVariants.{Kind, Tag, Cells, Utf8, Empty, Size, End};
ghost use Rattle.redo_vec.specs.Cutting.{first_record};
ghost use Rattle.redo_vec.specs.Spelling.{be16, be32, be64};
ghost use Rattle.redo_spec.specs.LogHeader.{header_fault};
ghost use Rattle.redo_spec.specs.Worked.{first_bytes};
ghost use Rattle.redo_spec.specs.WorkedBytes.{vector_fault_in, insert_with, table_with};

/// Each fault of a header, and the least and greatest that is taken.
pub fn bad_headers_have_their_fault()
    ensures whole { header_fault 1 (take 40 first_bytes) ≡ None }
    ensures short { header_fault 1 (take 39 first_bytes) ≡ Some heads.Short }
    ensures magic { header_fault 1 (slice_set first_bytes 3 0x32) ≡ Some heads.Magic }
    ensures version { header_fault 1 (slice_set first_bytes 5 2) ≡ Some heads.Version }
    ensures thread { header_fault 1 (slice_set first_bytes 7 2) ≡ Some heads.Thread }
    ensures sequence { header_fault 2 first_bytes ≡ Some heads.Sequence }
    ensures first_0 { header_fault 1 (slice_set first_bytes 23 0) ≡ Some heads.Range }
    ensures first_1 { header_fault 1 (slice_set first_bytes 23 1) ≡ None }
    ensures no_scn { header_fault 1 (slice_set first_bytes 31 100) ≡ Some heads.Range }
    ensures one_scn { header_fault 1 (slice_set first_bytes 31 101) ≡ None }
    ensures records { header_fault 1 (slice_set first_bytes 35 0) ≡ Some heads.Records }
    ensures reserved { header_fault 1 (slice_set first_bytes 39 1) ≡ Some heads.Reserved }
    ensures first_counts { header_fault 1 (slice_set (slice_set first_bytes 39 1) 7 2) ≡ Some heads.Thread }
{}

/// The limits of a record's length and of its count of vectors.
pub fn records_are_cut_within_limits()
    ensures no_length { first_record (0 ∷ 0 ∷ 0 ∷ []) ≡ Err Truncated }
    ensures least { first_record (be32 15 ++ be64 5 ++ be16 1 ++ 9 ∷ []) ≡ Ok (be32 15 ++ be64 5 ++ be16 1 ++ 9 ∷ [], []) }
    ensures too_short { first_record (be32 14 ++ be64 5 ++ be16 1) ≡ Err Length }
    ensures greatest { first_record (be32 65536) ≡ Err Truncated }
    ensures too_long { first_record (be32 65537) ≡ Err Length }
    ensures no_vector { first_record (be32 15 ++ be64 5 ++ be16 0 ++ 9 ∷ []) ≡ Err Count }
    ensures most_vectors { first_record (be32 15 ++ be64 5 ++ be16 255 ++ 9 ∷ []) ≡
        Ok (be32 15 ++ be64 5 ++ be16 255 ++ 9 ∷ [], []) }
    ensures too_many { first_record (be32 15 ++ be64 5 ++ be16 256 ++ 9 ∷ []) ≡ Err Count }
    ensures truncated_before_count { first_record (be32 16 ++ be64 5 ++ be16 0 ++ 9 ∷ []) ≡ Err Truncated }
{}

/// Each fault of a change's bytes, at its place.
pub fn bad_changes_have_their_place()
    ensures kind_0 { vector_fault_in (0 ∷ []) ≡ Some (Kind, 14) }
    ensures kind_10 { vector_fault_in (10 ∷ []) ≡ Some (Kind, 14) }
    ensures tag { vector_fault_in (insert_with (1 ∷ 0 ∷ 4 ∷ [])) ≡ Some (Tag, 30) }
    ensures count { vector_fault_in (insert_with (33 ∷ [])) ≡ Some (Cells, 28) }
    ensures greatest_count { vector_fault_in (insert_with (32 ∷ [])) ≡ Some (End, 29) }
    ensures column { vector_fault_in (insert_with (1 ∷ 32 ∷ 0 ∷ [])) ≡ Some (Cells, 29) }
    ensures greatest_column { vector_fault_in (insert_with (1 ∷ 31 ∷ 0 ∷ [])) ≡ None }
    ensures rising { vector_fault_in (insert_with (2 ∷ 1 ∷ 0 ∷ 1 ∷ 0 ∷ [])) ≡ Some (Cells, 31) }
    ensures empty { vector_fault_in (insert_with (1 ∷ 0 ∷ 2 ∷ 0 ∷ 0 ∷ [])) ≡ Some (Empty, 31) }
    ensures size { vector_fault_in (insert_with (1 ∷ 0 ∷ 3 ∷ 1 ∷ 0xf5 ∷ [])) ≡ Some (Size, 31) }
    ensures utf8 { vector_fault_in (insert_with (1 ∷ 0 ∷ 2 ∷ 0 ∷ 1 ∷ 0xff ∷ [])) ≡ Some (Utf8, 33) }
    ensures end_before_utf8 { vector_fault_in (insert_with (1 ∷ 0 ∷ 2 ∷ 0 ∷ 2 ∷ 0xff ∷ [])) ≡ Some (End, 34) }
    ensures half_a_length { vector_fault_in (insert_with (1 ∷ 0 ∷ 2 ∷ 0 ∷ [])) ≡ Some (End, 32) }
    ensures bytes_left { vector_fault_in (9 ∷ 9 ∷ []) ≡ Some (End, 15) }
{}

/// Each fault of a table's bytes, at its place.
pub fn bad_tables_have_their_place()
    ensures no_name { vector_fault_in (8 ∷ 0 ∷ 0 ∷ 0 ∷ 1 ∷ 0 ∷ []) ≡ Some (Size, 19) }
    ensures long_name { vector_fault_in (8 ∷ 0 ∷ 0 ∷ 0 ∷ 1 ∷ 31 ∷ []) ≡ Some (Size, 19) }
    ensures no_column { vector_fault_in (table_with (0 ∷ [])) ≡ Some (Cells, 23) }
    ensures columns { vector_fault_in (table_with (33 ∷ [])) ≡ Some (Cells, 23) }
    ensures kind { vector_fault_in (table_with (1 ∷ 1 ∷ 67 ∷ 4 ∷ 0 ∷ 0 ∷ 0 ∷ [])) ≡ Some (Tag, 26) }
    ensures sized_number { vector_fault_in (table_with (1 ∷ 1 ∷ 67 ∷ 1 ∷ 0 ∷ 1 ∷ 0 ∷ [])) ≡ Some (Size, 27) }
    ensures text_of_0 { vector_fault_in (table_with (1 ∷ 1 ∷ 67 ∷ 2 ∷ 0 ∷ 0 ∷ 0 ∷ [])) ≡ Some (Size, 27) }
    ensures text_of_501 { vector_fault_in (table_with (1 ∷ 1 ∷ 67 ∷ 2 ∷ 1 ∷ 0xf5 ∷ 0 ∷ [])) ≡ Some (Size, 27) }
    ensures nullable { vector_fault_in (table_with (1 ∷ 1 ∷ 67 ∷ 1 ∷ 0 ∷ 0 ∷ 2 ∷ [])) ≡ Some (Tag, 29) }
    ensures no_key { vector_fault_in (table_with (1 ∷ 1 ∷ 67 ∷ 1 ∷ 0 ∷ 0 ∷ 0 ∷ 0 ∷ [])) ≡ Some (Cells, 30) }
    ensures uniques { vector_fault_in (table_with (1 ∷ 1 ∷ 67 ∷ 1 ∷ 0 ∷ 0 ∷ 0 ∷ 1 ∷ 0 ∷ 5 ∷ [])) ≡ Some (Cells, 32) }
    ensures whole { vector_fault_in (table_with (1 ∷ 1 ∷ 67 ∷ 1 ∷ 0 ∷ 0 ∷ 0 ∷ 1 ∷ 0 ∷ 0 ∷ [])) ≡ None }
{}
