//! Laws over what is ahead of a place.
ghost use Rattle.std.specs.Prelude.{◌≡◌, ◌≤◌, ◌<◌, ◌+◌, ◌^◌, ℕ, List, [], ◌∷◌, ◌++◌, length, drop, Option, None};
ghost use Rattle.redo_spec.specs.Redo.{redo_from};
ghost use Rattle.redo_wire.specs.declared.raw.Raw.{Raw};
ghost use Rattle.log_registry.specs.declared.entry.LogEntry.{LogEntry};
ghost use Rattle.log_registry.specs.Registered.{AreToldBy, IsRising, entry_of, entries_from, with_log};
ghost use Rattle.redo_reader.specs.declared.place.Place.{Place};
ghost use Rattle.redo_reader.specs.Ahead.{Ahead, ahead, raws_before, redo_ahead, first_place, told_logs};
ghost use Rattle.redo_reader.specs.Reading.{place_after_raw, clamped_place};
ghost use Rattle.redo_reader.specs.Behind.{place_ahead, ahead_left, redo_left};

use redo_wire::{pieces_do_not_matter, pieces_give_the_records};

/// What is ahead of the first record of a log, decoded, is the redo of the registered logs from there on, where they
/// are those that the archive tells.
pub fn the_reader_gives_the_redo()
    ensures redo { (logs : ℕ → Option (List ℕ)) (registry : List LogEntry) (seq rec : ℕ) → AreToldBy logs registry →
        redo_ahead logs registry (first_place seq rec) ≡ redo_from seq rec (told_logs logs (entries_from seq registry)) }
{
    pieces_do_not_matter();
    pieces_give_the_records();
}

/// What is ahead of the place behind a record is what came behind that record, within its log and across logs, where the
/// registered logs rise by sequence. A reading side that is begun at a place which a cut led to gives the rest of the redo.
pub fn the_reader_gives_the_rest()
    // Behind the first so many of the records that are ahead of a place the others are, and then what ends them.
    ensures ahead { (logs : ℕ → Option (List ℕ)) (registry : List LogEntry) (place : Place) (count : ℕ) → IsRising registry →
        ahead logs registry (place_ahead logs registry place count) ≡ ahead_left count (ahead logs registry place) }
    // As many records more stand before that place.
    ensures number { (logs : ℕ → Option (List ℕ)) (registry : List LogEntry) (place : Place) (count : ℕ) → IsRising registry →
        count ≤ length (ahead logs registry place).raws →
        (place_ahead logs registry place count).rec ≡ place.rec + count }
    // A record that is cut there leads to the place behind one record more.
    ensures next { (logs : ℕ → Option (List ℕ)) (registry : List LogEntry) (place : Place) (count : ℕ) (raw : Raw)
        (later : Ahead) → IsRising registry →
        ahead logs registry (place_ahead logs registry place count) ≡ raws_before (raw ∷ []) later →
        place_after_raw raw ≡ place_ahead logs registry place (count + 1) }
    // The redo of the registered logs from a log on, behind so many of its records: it is what is ahead there, decoded.
    ensures redo { (logs : ℕ → Option (List ℕ)) (registry : List LogEntry) (seq rec count : ℕ) → AreToldBy logs registry →
        IsRising registry → let redo = redo_from seq rec (told_logs logs (entries_from seq registry)) in
        count ≤ length redo.entries →
        redo_ahead logs registry (place_ahead logs registry (first_place seq rec) count) ≡ redo_left count redo }
    // A reading side takes such a place as it is.
    ensures kept { (logs : ℕ → Option (List ℕ)) (registry : List LogEntry) (seq rec count : ℕ) → IsRising registry →
        let place = place_ahead logs registry (first_place seq rec) count in
        place.done < 2 ^ 32 → clamped_place registry place ≡ place }
{
    the_reader_gives_the_redo();
}

/// Where a further log is registered, the records that were ahead stay, and so do the places behind them: its own records may
/// only come behind those. So a place that was kept may be begun at still.
pub fn what_was_ahead_stays()
    // The place behind so many of the records that were ahead is the same.
    ensures place { (logs : ℕ → Option (List ℕ)) (registry : List LogEntry) (place : Place) (count : ℕ) (entry : LogEntry) →
        IsRising registry → entry_of entry.head.seq registry ≡ None → count ≤ length (ahead logs registry place).raws →
        place_ahead logs (with_log entry registry) place count ≡ place_ahead logs registry place count }
    // The redo of the registered logs goes on behind its records.
    ensures redo { (logs : ℕ → Option (List ℕ)) (registry : List LogEntry) (seq rec : ℕ) (entry : LogEntry) →
        IsRising registry → entry_of entry.head.seq registry ≡ None →
        let old = (redo_from seq rec (told_logs logs (entries_from seq registry))).entries in
        let new = (redo_from seq rec (told_logs logs (entries_from seq (with_log entry registry)))).entries in
        new ≡ old ++ drop (length old) new }
{}
