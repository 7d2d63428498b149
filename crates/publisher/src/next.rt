//! What is shown next, once the commit of the store is done.
//!
//! All of it is made before that commit, so that showing it takes no memory and cannot fail.
ghost use Rattle.std.specs.Prelude.{◌≡◌, Some, None};
ghost use Rattle.std.specs.Option.{option_map};
ghost use Rattle.checkpoint.specs.Images.{image_state};
ghost use Rattle.publisher.specs.Endings.{ending_of};
ghost use Rattle.publisher.specs.Shown.{shown_next, shown_if_done};

use crate::fault::PubFault;
use checkpoint::{Image, Mark};
use log_registry::Registry;
use rl_value::Scn;
use skip_guard::{Level, Skips};
use table_store::Tables;

/// A part of the state that takes the place of the one before, or a standby where none was.
#[derive(Drop)]
pub(crate) enum Next {
    Logs(Registry),
    Skips(Skips),
    Level(Level),
    Mark(Mark),
    Rows(Tables),
    Commits { tables: Tables, n: u64, scn: Scn },
    Standby(Image),
}

// A part takes the place of the one before.
fn show_part(image: &mut Image, next: Next)
    ensures shown { shown_next next (Some (image_state image.old)) ≡ Some (image_state image.new) }
{
    match next {
        Next::Logs(logs) => image.logs = logs,
        Next::Skips(skips) => image.skips = skips,
        Next::Level(level) => image.level = level,
        Next::Mark(mark) => image.mark = Some(mark),
        Next::Rows(tables) => image.tables = tables,
        Next::Commits { tables, n, scn } => {
            image.tables = tables;
            image.n = n;
            image.scn = scn;
        }
        Next::Standby(standby) => *image = standby,
    }
}

// Where no standby is there, only a whole one is shown.
fn show_first(next: Next) -> Option<Image>
    ensures shown { option_map image_state result ≡ shown_next next (option_map image_state None) }
{
    match next {
        Next::Standby(standby) => Some(standby),
        _ => None,
    }
}

fn show(image: &mut Option<Image>, next: Next)
    ensures shown { option_map image_state image.new ≡ shown_next next (option_map image_state image.old) }
{
    match image {
        Some(image) => show_part(image, next),
        None => *image = show_first(next),
    }
}

/// Shows what is next where the commit of the store was done, and leaves what is shown else.
pub(crate) fn show_if_done(image: &mut Option<Image>, next: Next, kept: &Result<(), PubFault>)
    ensures shown { option_map image_state image.new ≡
        shown_if_done (ending_of kept.now) next (option_map image_state image.old) }
{
    match kept {
        Ok(()) => show(image, next),
        Err(PubFault::KeeperFault) => {}
        Err(_) => {}
    }
}
