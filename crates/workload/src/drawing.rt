//! A transaction that is being drawn: its change, and its end.
ghost use Rattle.std.specs.Prelude.{◌≡◌, IfOk};
ghost use Rattle.workload.specs.Pairs.{drawing_of, change_drawn, end_vector, balances_after};

use crate::accounts::{account_change, xid_of};
use crate::balances::Balances;
use crate::draws::drawn;
use redo_vec::Vector;
use rl_value::NoMemory;
use std::alloc::Global;

/// A transaction: its number, the ID of its first account, and the balances before it and as it sees them.
#[derive(Drop)]
pub struct Drawing {
    pub number: u32,
    pub least: u8,
    pub before: Balances,
    pub seen: Balances,
}

/// A change, and the transaction behind it.
#[derive(Drop)]
pub struct Step {
    pub vector: Vector,
    pub after: Drawing,
}

impl Drawing {
    /// A transaction that begins.
    pub fn of(number: u32, least: u8, balances: &Balances) -> Result<Drawing, NoMemory>
        ensures { IfOk result (λ drawing. drawing ≡ drawing_of number least balances.now) }
    {
        Ok(Drawing {
            number,
            least,
            before: balances.copy()?,
            seen: balances.copy()?,
        })
    }

    /// The change that draws its account by one state and its amount by another.
    #[tactic(auto, unfolding(crate::specs::Pairs::change_drawn))]
    pub fn change(self, alloc: Global, x: u64, y: u64) -> Result<Step, NoMemory>
        ensures { IfOk result (λ step. step ≡ change_drawn x y self) }
    {
        let Drawing {
            number,
            least,
            before,
            seen,
        } = self;
        let place = drawn(500, x);
        let amount = 1 + drawn(100, y);
        let balance = seen.at(place as usize);
        let id = 2 * place + u64::from(least);
        let change = account_change(alloc, number, id, balance, amount)?;
        let Some(sum) = balance.checked_add(amount) else {
            return Err(NoMemory);
        };
        Ok(Step {
            vector: Vector::Change(change),
            after: Drawing {
                number,
                least,
                before,
                seen: seen.with(place as usize, sum),
            },
        })
    }

    /// The balances behind its end, which is drawn by this state.
    #[tactic(auto, unfolding(crate::specs::Pairs::balances_after))]
    pub fn balances_after(self, x: u64) -> Balances
        ensures { result ≡ balances_after x self }
    {
        let Drawing { before, seen, .. } = self;
        if drawn(10, x) == 0 { before } else { seen }
    }
}

/// The end of the transaction of this number.
#[tactic(auto, unfolding(crate::specs::Pairs::end_vector))]
pub fn end_vector(x: u64, number: u32) -> Vector
    ensures { result ≡ end_vector x number }
{
    if drawn(10, x) == 0 {
        Vector::Rollback(xid_of(number))
    } else {
        Vector::Commit(xid_of(number))
    }
}
