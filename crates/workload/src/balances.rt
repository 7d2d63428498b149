//! The balances of the accounts that one transaction of a pair chooses from: a place for each of the 500, and 0 where the account
//! is not open.
ghost use Rattle.std.specs.Prelude.{◌≡◌, ◌<◌, IfOk, length, set};
ghost use Rattle.workload.specs.Balances.{no_balances, balance_of};

use rl_value::NoMemory;
use std::alloc::Global;
use std::marker::Model;

/// Balances by place.
#[derive(Drop)]
pub struct Balances {
    items: Vec<u64>,
}

impl Model for Balances {
    ghost use Rattle.std.specs.Prelude.{List, ℕ, ◌≡◌, length};

    ghost Value = { List ℕ };

    ghost view = { λ b. b.items.items };

    // A place for each of the accounts.
    ghost invariant = { λ b. length b.items.items ≡ 500 };
}

fn put(balances: &mut Vec<u64>, place: usize, balance: u64)
    requires there { place < length balances.old.items }
    ensures { balances.new.items ≡ set balances.old.items place balance }
{
    balances[place] = balance;
}

fn balance_of(balances: &[u64], place: usize) -> u64
    ensures { result ≡ balance_of balances.now place }
{
    match balances.get(place) {
        Some(balance) => *balance,
        None => 0,
    }
}

impl Balances {
    /// No account is open.
    pub fn none(alloc: Global) -> Result<Balances, NoMemory>
        ensures { IfOk result (λ balances. balances ≡ no_balances) }
    {
        let Ok(items) = vec![in alloc; 0u64; 500] else {
            return Err(NoMemory);
        };
        Ok(Balances { items })
    }

    /// The balance at a place.
    pub fn at(&self, place: usize) -> u64
        ensures { result ≡ balance_of self.now place }
    {
        balance_of(self.items.as_slice(), place)
    }

    /// These balances with another one at a place.
    pub fn with(self, place: usize, balance: u64) -> Balances
        requires there { place < 500 }
        ensures { result ≡ set self place balance }
    {
        let Balances { mut items } = self;
        put(&mut items, place, balance);
        Balances { items }
    }

    /// An equal one, which owns memory of its own.
    pub fn copy(&self) -> Result<Balances, NoMemory>
        ensures equal { IfOk result (λ balances. balances ≡ self.now) }
    {
        match self.items.clone() {
            Ok(items) => Ok(Balances { items }),
            Err(_) => Err(NoMemory),
        }
    }
}
