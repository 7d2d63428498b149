//! VIEW PROGRESS: up to which SCN the redo is applied, where a run begins again, how far the redo is mined, and how far it goes.
ghost use Rattle.std.specs.Prelude.{◌≡◌, IfOk};
ghost use Rattle.std.specs.Option.{option_copied};
ghost use Rattle.view_lines.specs.Views.{latest_scn, restart_scn, mining_scn, progress_lines};

use crate::words::push_numbered;
use log_registry::Registry;
use rl_base::Lines;
use rl_value::{NoMemory, Scn};
use standby_spec::Mark;
use std::alloc::Global;

// The SCN before the greatest next change of the logs. Logs may overlap behind a bad one, so each is looked at.
fn latest_scn(logs: &Registry) -> Scn
    ensures exact { result ≡ latest_scn logs.now }
{
    let mut latest: Scn = 0;
    for entry in logs.entries() {
        latest = latest.max(entry.head.next.saturating_sub(1));
    }
    latest
}

fn restart_scn(base: Scn, mark: Option<&Mark>) -> Scn
    ensures exact { result ≡ restart_scn base (option_copied mark.entry) }
{
    match mark {
        None => base,
        Some(mark) => mark.q_scn,
    }
}

fn mining_scn(base: Scn, mark: Option<&Mark>) -> Scn
    ensures exact { result ≡ mining_scn base (option_copied mark.entry) }
{
    match mark {
        None => base,
        Some(mark) => mark.m_scn,
    }
}

/// The lines of VIEW PROGRESS: the SCN of the last applied commit, or the base SCN; the SCNs of the kept checkpoint, or the base
/// SCN; and the last SCN that the registered logs can have. It looks at each log.
pub fn progress_lines(
    alloc: Global,
    scn: Scn,
    base: Scn,
    mark: Option<&Mark>,
    logs: &Registry,
) -> Result<Lines, NoMemory>
    ensures exact { IfOk result (λ lines. lines ≡ progress_lines scn base (option_copied mark.entry) logs.now) }
{
    let mut lines = Lines::of(Vec::new(alloc));
    push_numbered(alloc, &mut lines, b"APPLIED_SCN", scn)?;
    push_numbered(alloc, &mut lines, b"RESTART_SCN", restart_scn(base, mark))?;
    push_numbered(alloc, &mut lines, b"MINING_SCN", mining_scn(base, mark))?;
    push_numbered(alloc, &mut lines, b"LATEST_SCN", latest_scn(logs))?;
    Ok(lines)
}
