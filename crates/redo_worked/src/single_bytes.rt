//! More worked examples of single bytes: neighbouring faults of a header, of which the first counts, and limits of a table's
//! fields.
//!
//! Each function here has an empty body; its clauses hold by computing both sides. The bytes are those of
//! `specs/WorkedBytes.antt` of `redo_spec`.
ghost use Rattle.std.specs.Prelude.{◌≡◌, [], ◌∷◌, slice_set, Some};
ghost use Rattle.rl_value.specs.declared.cause.HeadFault.TheVariants as heads;
ghost use Rattle.rl_value.specs.declared.cause.VecFault.TheVariants.{Tag, Cells, Size, End};
ghost use Rattle.redo_spec.specs.LogHeader.{header_fault};
ghost use Rattle.redo_spec.specs.Worked.{first_bytes};
ghost use Rattle.redo_spec.specs.WorkedBytes.{vector_fault_in, table_with};

/// Of two faults of a header the first counts.
pub fn header_faults_are_in_order()
    ensures magic_first { header_fault 1 (slice_set (slice_set first_bytes 3 0x32) 5 2) ≡ Some heads.Magic }
    ensures version_first { header_fault 1 (slice_set (slice_set first_bytes 5 2) 7 2) ≡ Some heads.Version }
    ensures thread_first { header_fault 2 (slice_set first_bytes 7 2) ≡ Some heads.Thread }
    ensures sequence_first { header_fault 2 (slice_set first_bytes 23 0) ≡ Some heads.Sequence }
    ensures range_first { header_fault 1 (slice_set (slice_set first_bytes 23 0) 35 0) ≡ Some heads.Range }
    ensures records_first { header_fault 1 (slice_set (slice_set first_bytes 35 0) 39 1) ≡ Some heads.Records }
{}

/// Kinds, sizes and keys of a table just past their limits, and the most unique keys.
pub fn tables_have_limits()
    ensures kind_0 { vector_fault_in (table_with (1 ∷ 1 ∷ 67 ∷ 0 ∷ 0 ∷ 0 ∷ 0 ∷ [])) ≡ Some (Tag, 26) }
    ensures raw_of_0 { vector_fault_in (table_with (1 ∷ 1 ∷ 67 ∷ 3 ∷ 0 ∷ 0 ∷ 0 ∷ [])) ≡ Some (Size, 27) }
    ensures key_of_33 { vector_fault_in (table_with (1 ∷ 1 ∷ 67 ∷ 1 ∷ 0 ∷ 0 ∷ 0 ∷ 33 ∷ [])) ≡ Some (Cells, 30) }
    ensures key_column_32 { vector_fault_in (table_with (1 ∷ 1 ∷ 67 ∷ 1 ∷ 0 ∷ 0 ∷ 0 ∷ 1 ∷ 32 ∷ [])) ≡ Some (Cells, 31) }
    ensures key_rising { vector_fault_in (table_with (1 ∷ 1 ∷ 67 ∷ 1 ∷ 0 ∷ 0 ∷ 0 ∷ 2 ∷ 1 ∷ 1 ∷ [])) ≡ Some (Cells, 32) }
    ensures greatest_uniques { vector_fault_in (table_with (1 ∷ 1 ∷ 67 ∷ 1 ∷ 0 ∷ 0 ∷ 0 ∷ 1 ∷ 0 ∷ 4 ∷ [])) ≡ Some (End, 33) }
{}
