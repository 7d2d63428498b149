//! The effects of a commit's changes, over rows that stay as they are.
ghost use Rattle.std.specs.Prelude.{◌≡◌, ◌<◌, [], Ok, Err, OnOk, IfErr, IsTrue};
ghost use Rattle.redo_spec.specs.Tables.{assembled};
ghost use Rattle.redo_spec.specs.Fold.{effects};
ghost use Rattle.row_apply.specs.Overlaid.{overlaid, are_of};
ghost use Rattle.row_apply.specs.Soundness.{AreSound};
ghost use Rattle.primary.specs.Progress.{kept_of};
ghost use Rattle.primary.specs.Running.{AreAccepted, TellsMiss};

use plain_store::Based;
use redo_dict::Dict;
use redo_vec::Change;
use rl_value::{Miss, Pos};
use row_apply::laws::no_writes_change_nothing;
use row_apply::{EffectFault, Overlay, effect};
use skip_guard::Skips;

/// Why changes are not all done.
#[derive(Drop)]
pub enum EffectsFault {
    /// The change at this position, of this table, misses.
    Missed { pos: Pos, table: u32, miss: Miss },
    /// Want of memory.
    Memory,
}

/// Does the changes of the commit after n that are not passed over, one after another, over the rows of the base.
pub fn effects_of(
    base: &Based,
    skips: &Skips,
    n: u64,
    changes: &[(Pos, Change)],
    over: &mut Overlay,
) -> Result<(), EffectsFault>
    requires empty { over.old ≡ [] }
    requires accepted { AreAccepted base.now.dictionary.tables changes.now }
    requires sound { AreSound (assembled base.now.dictionary.tables base.now.rows) }
    ensures done { OnOk result (effects (assembled base.now.dictionary.tables base.now.rows)
        (kept_of skips.now base.now.dictionary.tables n changes.now)
        ≡ Ok (overlaid (assembled base.now.dictionary.tables base.now.rows) over.new)) }
    ensures missed { IfErr result (TellsMiss (effects (assembled base.now.dictionary.tables base.now.rows)
        (kept_of skips.now base.now.dictionary.tables n changes.now))) }
    ensures sound { OnOk result (AreSound (overlaid (assembled base.now.dictionary.tables base.now.rows) over.new)) }
    ensures of_tables { OnOk result (IsTrue (are_of base.now.dictionary.tables over.new)) }
{
    no_writes_change_nothing();
    let mut rest = changes;
    while let [(pos, change), more @ ..] = rest {
        if !skips.skipped(base.dict(), change, n) {
            match effect(base, base.dict(), over, change) {
                Ok(()) => {}
                Err(EffectFault::Memory) => return Err(EffectsFault::Memory),
                Err(EffectFault::Miss(miss)) => {
                    return Err(EffectsFault::Missed {
                        pos: *pos,
                        table: change.table,
                        miss,
                    });
                }
            }
        }
        rest = more;
    }
    Ok(())
}
