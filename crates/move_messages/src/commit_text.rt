//! Commits: the pairs of a plan and the prices that prove it.

ghost use Rattle.std.specs.Prelude.{◌≡◌, ◌↔◌, IfOk, IsTrue, nat_eq};
ghost use Rattle.std.specs.Cmp.{partial_equiv_from_equiv};
ghost use Rattle.std.specs.Cmp.Lexicographic.{pointwise, lists_equiv, nat_list_eq_equiv};
ghost use Rattle.move_messages.specs.Pairs.{pair_eq, pair_eq_equiv};

use rail_codes::{Moment, OrderId, WagonNumber};
use std::alloc::{AllocError, Global};
use std::marker::Model;

/// Which wagon goes to which order. A contract sees the list of the pairs.
pub struct Pairs {
    items: Vec<(WagonNumber, OrderId)>,
}

// Written out, it is proved here once; a derived one, in each crate that drops a value.
impl Drop for Pairs {
    fn drop(self) {
        let Pairs { items: _ } = self;
    }
}

impl Model for Pairs {
    ghost use Rattle.std.specs.Prelude.{ℕ, List};

    ghost Value = { List (List ℕ × List ℕ) };

    ghost view = { λ p. p.items.items };
}

impl Pairs {
    /// These pairs. Nothing is allocated.
    pub fn from_vec(items: Vec<(WagonNumber, OrderId)>) -> Pairs
        ensures { result ≡ items.items }
    {
        Pairs { items }
    }

    /// The pairs in their order.
    pub fn as_slice(&self) -> &[(WagonNumber, OrderId)]
        ensures { result.now ≡ self.now }
    {
        self.items.as_slice()
    }

    /// The pairs as they were handed in. Nothing is allocated.
    pub fn into_vec(self) -> Vec<(WagonNumber, OrderId)>
        ensures { result.items ≡ self }
    {
        let Pairs { items } = self;
        items
    }

    /// The same pairs again.
    pub(crate) fn copy(&self, alloc: Global) -> Result<Pairs, AllocError>
        ensures { IfOk result (λ copy. copy ≡ self.now) }
    {
        let items = Vec::from_slice(alloc, self.as_slice())?;
        Ok(Pairs { items })
    }
}

impl PartialEq for Pairs {
    ghost eq = { pointwise pair_eq };

    ghost laws = { partial_equiv_from_equiv (lists_equiv pair_eq_equiv) };

    fn eq(&self, other: &Self) -> bool {
        self.as_slice() == other.as_slice()
    }
}

impl Eq for Pairs {
    ghost laws = { lists_equiv pair_eq_equiv };
}

/// Dual prices in km, one after the other. A contract sees the list of the numbers.
pub struct PriceList {
    prices: Vec<u64>,
}

// Written out, it is proved here once; a derived one, in each crate that drops a value.
impl Drop for PriceList {
    fn drop(self) {
        let PriceList { prices: _ } = self;
    }
}

impl Model for PriceList {
    ghost use Rattle.std.specs.Prelude.{ℕ, List};

    ghost Value = { List ℕ };

    ghost view = { λ p. p.prices.items };
}

impl PriceList {
    /// These prices. Nothing is allocated.
    pub fn from_vec(prices: Vec<u64>) -> PriceList
        ensures { result ≡ prices.items }
    {
        PriceList { prices }
    }

    /// The prices in their order.
    pub fn as_slice(&self) -> &[u64]
        ensures { result.now ≡ self.now }
    {
        self.prices.as_slice()
    }

    /// The prices as they were handed in. Nothing is allocated.
    pub fn into_vec(self) -> Vec<u64>
        ensures { result.items ≡ self }
    {
        let PriceList { prices } = self;
        prices
    }

    /// The same prices again.
    pub(crate) fn copy(&self, alloc: Global) -> Result<PriceList, AllocError>
        ensures { IfOk result (λ copy. copy ≡ self.now) }
    {
        let prices = Vec::from_slice(alloc, self.as_slice())?;
        Ok(PriceList { prices })
    }
}

impl PartialEq for PriceList {
    ghost eq = { pointwise nat_eq };

    ghost laws = { partial_equiv_from_equiv nat_list_eq_equiv };

    fn eq(&self, other: &Self) -> bool {
        self.as_slice() == other.as_slice()
    }
}

impl Eq for PriceList {
    ghost laws = { nat_list_eq_equiv };
}

/// A plan that is to be promised, with its prices. Nothing ties the lists' lengths to one another.
#[derive(Drop, PartialEq, Eq)]
pub struct CommitText {
    /// The version whose problem was planned, 0 to 1,000,000 in a line.
    pub version: u64,
    /// The moment of that problem, in seconds since 1970.
    pub at: Moment,
    /// The plan: which wagon goes to which order.
    pub pairs: Pairs,
    /// The dual price of each wagon of the problem in km, ascending by the wagon's number.
    pub u: PriceList,
    /// The dual price of each order of the problem in km, in the order in which they were placed.
    pub v: PriceList,
}

impl CommitText {
    /// The same commit again.
    pub fn copy(&self, alloc: Global) -> Result<CommitText, AllocError>
        ensures { IfOk result (λ copy. copy ≡ self.now) }
    {
        let pairs = self.pairs.copy(alloc)?;
        let u = self.u.copy(alloc)?;
        let v = self.v.copy(alloc)?;
        Ok(CommitText {
            version: self.version,
            at: self.at,
            pairs,
            u,
            v,
        })
    }
}

/// Whether two commits are one, field by field. (Of `==` it isn't proved.)
pub(crate) fn is_same_commit(one: &CommitText, other: &CommitText) -> bool
    ensures { IsTrue result ↔ (one.now ≡ other.now) }
{
    one.version == other.version
        && one.at == other.at
        && are_same_pairs(&one.pairs, &other.pairs)
        && are_same_prices(&one.u, &other.u)
        && are_same_prices(&one.v, &other.v)
}

fn are_same_pairs(one: &Pairs, other: &Pairs) -> bool
    ensures { IsTrue result ↔ (one.now ≡ other.now) }
{
    *one == *other
}

fn are_same_prices(one: &PriceList, other: &PriceList) -> bool
    ensures { IsTrue result ↔ (one.now ≡ other.now) }
{
    *one == *other
}
