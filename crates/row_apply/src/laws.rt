//! Laws of overlaid and of sound tables, and of single writes, each stated by a public function with an empty body. A proof
//! above uses a law where its function calls it.
ghost use Rattle.std.specs.Prelude.{◌≡◌, ◌≢◌, ◌↔◌, ◌++◌, ℕ, List, [], None, Some, Option, Ok, false, if◌then◌else◌, slice_get, IsTrue};
ghost use Rattle.std.specs.List.{list_any, AllByRecursion};
ghost use Rattle.std.specs.Ordering.{eq_by_cmp, is_eq};
ghost use Rattle.std.specs.FinMap.Entries as entries;
ghost use Rattle.rl_value.specs.declared.value.Value.{Value};
ghost use Rattle.rl_value.specs.declared.key.Key.{Key};
ghost use Rattle.rl_value.specs.Order.{row_cmp, key_cmp};
ghost use Rattle.rl_value.specs.Text.{are_cells};
ghost use Rattle.redo_vec.specs.declared.change.Change.{Change};
ghost use Rattle.redo_vec.specs.declared.table.TableRow.{TableRow};
ghost use Rattle.redo_spec.specs.ChangeForm.{change_fault};
ghost use Rattle.redo_spec.specs.ConflictKeys.{is_null};
ghost use Rattle.redo_spec.specs.Dictionary.{uniques_of};
ghost use Rattle.redo_spec.specs.Effect.{effect};
ghost use Rattle.redo_spec.specs.Tables.{Rows, Tables, empty_tables, definitions_of, owner_in, values_at};
ghost use Rattle.redo_spec.specs.Work.{write_row};
ghost use Rattle.row_apply.specs.declared.writes.Write.{Write};
ghost use Rattle.row_apply.specs.Overlaid.{overlaid, written_at, written_key, writes_rise};
ghost use Rattle.row_apply.specs.Written.{writes_in, put_writes};
ghost use Rattle.row_apply.specs.Soundness.{AreSound, AreSoundRows};

/// Tables without rows are sound.
pub fn tables_without_rows_are_sound()
    ensures sound { (tables : List TableRow) → AreSound (empty_tables tables) }
{}

/// The effect of an accepted change leaves sound tables sound, where its new cells rise by their columns, as those of each
/// decoded change do. Of no table it changes more than the rows.
pub fn an_effect_leaves_sound_tables()
    ensures sound { (tables after : Tables) (change : Change) → AreSound tables →
        change_fault (definitions_of tables) change ≡ None →
        IsTrue (are_cells change.new) → effect tables change ≡ Ok after → AreSound after }
    ensures same { (tables after : Tables) (change : Change) → effect tables change ≡ Ok after →
        definitions_of after ≡ definitions_of tables }
{}

/// Among sound rows a unique value without Null is owned by the row that has it, and a value that no row has by none.
pub fn a_unique_value_has_its_owner()
    ensures owner { (table : TableRow) (rows : Rows) (index : ℕ) (columns : List ℕ) (values key row : List Value) →
        AreSoundRows table rows →
        slice_get (uniques_of table) index ≡ Some columns → entries.find row_cmp key rows ≡ Some row →
        values_at row columns ≡ values →
        list_any is_null values ≡ false → owner_in rows columns values ≡ Some key }
    ensures none { (table : TableRow) (rows : Rows) (columns : List ℕ) (values : List Value) → AreSoundRows table rows →
        ((key row : List Value) → entries.find row_cmp key rows ≡ Some row → values_at row columns ≢ values) →
        owner_in rows columns values ≡ None }
{}

/// After a write its row, or none, stands under its key, and under each other key what stood there. Rows that rise still do.
pub fn a_write_is_of_one_row()
    ensures found { (rows : Rows) (key other : List Value) (row : Option (List Value)) →
        entries.find row_cmp other (write_row rows key row) ≡
        (if eq_by_cmp row_cmp other key then row else entries.find row_cmp other rows) }
    ensures rising { (rows : Rows) (key : List Value) (row : Option (List Value)) →
        IsTrue (entries.is_sorted row_cmp rows) → IsTrue (entries.is_sorted row_cmp (write_row rows key row)) }
{}

/// Values of rows, and keys, that the order does not tell apart are the same.
pub fn equal_in_order_is_equal()
    ensures rows { (one other : List Value) → IsTrue (eq_by_cmp row_cmp one other) ↔ (one ≡ other) }
    ensures keys { (one other : Key) → IsTrue (eq_by_cmp key_cmp one other) ↔ (one ≡ other) }
{}

/// No writes change nothing.
pub fn no_writes_change_nothing()
    ensures same { (tables : Tables) → overlaid tables [] ≡ tables }
{}

/// Writes that rise are told by what they leave under each key.
pub fn writes_are_what_they_leave()
    ensures same { (one other : List Write) → IsTrue (writes_rise one) → IsTrue (writes_rise other) →
        ((key : Key) → written_at one key ≡ written_at other key) → one ≡ other }
{}

/// Writes that are made behind others: what they leave is told by what stands under each key.
pub fn later_writes_are_put_in()
    ensures same { (before writes new : List Write) → IsTrue (writes_rise new) →
        AllByRecursion (λ w. written_at new (written_key w) ≡ Some w.row) writes →
        ((key : Key) → list_any (λ w. is_eq (key_cmp (written_key w) key)) writes ≡ false →
        written_at new key ≡ written_at (writes_in (put_writes [] before)) key) →
        new ≡ writes_in (put_writes [] (before ++ writes)) }
{}
