//! The ids of messages as numbers.
ghost use Rattle.std.specs.Prelude.{◌≡◌, Some, refl};
ghost use Rattle.std.specs.Cmp.Rules.{comparing};
ghost use Rattle.std.proofs.Common.{rules};
ghost use Rattle.std.specs.Cmp.{po};
ghost use Rattle.std.specs.Ordering.{nat_cmp};
ghost use Rattle.commit_book.specs.inner.IdKey.{ids_ordered, ids_tie};
ghost use Rattle.commit_book.specs.inner.Ledger.{compare_ids, is_id};

use rail_codes::MessageId;
use std::cmp::Ordering;
use std::marker::Model;

/// The id of a message as one number: a search for an id compares it with many, and numbers are compared in one step. A
/// contract sees the id.
#[derive(Drop)]
pub(crate) struct IdKey {
    // The company's four characters, the first of them highest, then the 32 bits of its number.
    number: u64,
}

impl Model for IdKey {
    ghost use Rattle.commit_book.specs.inner.IdKey.{IsIdKey, id_in};
    ghost use Rattle.rail_codes.specs.declared.message_id.MessageId.{MessageId};

    ghost Value = { MessageId };

    ghost view = { λ key. id_in key.number };

    ghost invariant = { λ key. IsIdKey key.number };
}

impl IdKey {
    /// An id as a number.
    pub fn of(id: MessageId) -> IdKey
        ensures { result ≡ id }
    {
        let Some(company) = id.company.as_bytes().first_chunk::<4>() else {
            unreachable!()
        };
        let upper = u64::from(u32::from_be_bytes(*company));
        IdKey {
            number: upper * 4_294_967_296 + u64::from(id.number),
        }
    }
}

impl PartialEq for IdKey {
    ghost eq = { is_id };

    ghost laws = { Prim.search (comparing, rules) };

    fn eq(&self, other: &Self) -> bool {
        self.cmp(other).is_eq()
    }
}

impl Eq for IdKey {
    ghost laws = { Prim.search (comparing, rules) };
}

impl PartialOrd for IdKey {
    ghost partial_cmp = { λ a b. Some (compare_ids a b) };

    ghost laws = { po ids_ordered ids_tie };

    fn partial_cmp(&self, other: &Self) -> Option<Ordering> {
        Some(self.cmp(other))
    }
}

impl Ord for IdKey {
    ghost cmp = { compare_ids };

    ghost total = { ids_ordered };

    ghost matches_partial_cmp = { λ a b. refl };

    ghost matches_eq = { ids_tie };

    fn cmp(&self, other: &Self) -> Ordering {
        order_of(self.number, other.number)
    }
}

/// How two numbers are ordered. What a search asks first, whether one is greater, is tested first, and so compiles to one
/// comparison.
fn order_of(one: u64, other: u64) -> Ordering
    ensures { result ≡ nat_cmp one other }
{
    if one > other {
        Ordering::Greater
    } else if one == other {
        Ordering::Equal
    } else {
        Ordering::Less
    }
}
