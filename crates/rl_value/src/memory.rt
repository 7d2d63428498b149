//! Want of memory, the one refusal without a cause.
//!
//! It may come from each call whose signature names it. A clause may say where alone it comes; none says that it must.
//! A call whose signature does not name it takes no memory.

use thiserror::Error;

/// There is no memory for what the call had to make.
#[derive(Clone, Copy, Debug, PartialEq, Eq, Error)]
#[error("no memory")]
pub struct NoMemory;
