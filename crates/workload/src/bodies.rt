//! The lists of one and of two vectors that records are made of.
ghost use Rattle.std.specs.Prelude.{◌≡◌, ◌∷◌, [], IfOk};

use redo_vec::{Vector, Vectors};
use rl_value::NoMemory;
use std::alloc::Global;

pub fn one(alloc: Global, only: Vector) -> Result<Vectors, NoMemory>
    ensures { IfOk result (λ vectors. vectors ≡ only ∷ []) }
{
    let Ok(items) = Vec::from_array(alloc, [only]) else {
        return Err(NoMemory);
    };
    Ok(Vectors::of(items))
}

pub fn two(alloc: Global, first: Vector, second: Vector) -> Result<Vectors, NoMemory>
    ensures { IfOk result (λ vectors. vectors ≡ first ∷ second ∷ []) }
{
    let Ok(items) = Vec::from_array(alloc, [first, second]) else {
        return Err(NoMemory);
    };
    Ok(Vectors::of(items))
}
