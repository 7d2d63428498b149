//! Tables as they stood behind a commit.

use crate::tables::Tables;
use rl_value::Scn;

/// What a query reads: the tables behind the first `n` commits, the last of which had this SCN.
#[derive(Drop)]
pub struct View {
    pub scn: Scn,
    pub n: u64,
    pub tables: Tables,
}
