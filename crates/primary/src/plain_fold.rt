//! The fold of a list of records.
ghost use Rattle.std.specs.Prelude.{◌≡◌, ◌+◌, ◌<◌, ◌^◌, length, IfOk};
ghost use Rattle.rl_value.specs.declared.verdict.Stop.TheVariants.{Drained};
ghost use Rattle.row_apply.specs.Soundness.{AreSound};
ghost use Rattle.primary.specs.Starts.{IsStart, fold_from, folded_of};

use crate::evaluator::Evaluator;
use crate::fault::TakeFault;
use crate::laws::the_evaluator_folds;
use crate::plain::{Folded, Plain};
use redo_spec::Header;
use redo_vec::RedoRec;
use rl_value::{NoMemory, Stop};
use skip_guard::Skips;
use std::alloc::Global;

/// The fold of these records from the start on, with all of the redo read. Another fold may begin with its rows.
pub fn fold_plain(
    alloc: Global,
    start: Plain,
    recs: &[(Header, RedoRec)],
    skips: &Skips,
) -> Result<Folded, NoMemory>
    requires fits { IsStart start recs.now }
    requires few { start.law.rec + length recs.now < 2 ^ 64 }
    ensures folded { IfOk result (λ folded. folded_of folded ≡ fold_from start skips.now recs.now Drained) }
    ensures sound { IfOk result (λ folded. AreSound (folded_of folded).tables) }
{
    let mut fold = Evaluator::new(alloc, start)?;
    for (head, rec) in recs {
        match fold.take(head, rec.copy()?, skips) {
            Ok(next) => fold = next,
            Err(TakeFault::Unsound) => unreachable!(),
            Err(TakeFault::Memory) => return Err(NoMemory),
        }
    }
    let folded = fold.finish(Stop::Drained);
    the_evaluator_folds();
    Ok(folded)
}
