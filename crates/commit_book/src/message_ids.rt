//! For which event each id of a message is noted.
ghost use Rattle.std.specs.Prelude.{◌≡◌, IfOk, None, OnErr};
ghost use Rattle.std.specs.BTreeMap.{get};
ghost use Rattle.rail_codes.specs.declared.message_id.MessageId.{MessageId};
ghost use Rattle.commit_book.specs.inner.Ledger.{compare_ids};
ghost use Rattle.commit_book.specs.inner.MessageIds.{AreEntered, IsNotedUnless, company_id, index_among, index_of};

use crate::id_key::IdKey;
use crate::rising_ids::{NoteEntry, Noted, RisingIds};
use rail_codes::MessageId;
use std::alloc::{AllocError, Global};
use std::collections::BTreeMap;

/// The index of each message among the events, by its id. A company's numbers mostly ascend, and then a new one is only held
/// against the company's last. Senders choose the ids, so the maps are ordered ones: a look-up is short for all ids.
#[derive(Drop)]
pub(crate) struct MessageIds {
    // By the id with the number 0 of their company, those that came in ascending order.
    rising: BTreeMap<IdKey, RisingIds>,
    others: BTreeMap<IdKey, usize>,
}

impl MessageIds {
    /// No id.
    pub fn none(alloc: Global) -> MessageIds
        ensures { (id : MessageId) → index_of result id ≡ None }
    {
        MessageIds {
            rising: BTreeMap::new(alloc),
            others: BTreeMap::new(alloc),
        }
    }

    /// The index that is noted for an id.
    pub fn index_of(&self, id: &MessageId) -> Option<usize>
        ensures { result ≡ index_of self.now id.now }
    {
        match index_rising(&self.rising, id) {
            Some(index) => Some(index),
            None => self.others.get(&IdKey::of(*id)).copied(),
        }
    }

    /// Notes an index for an id, unless one is noted for it already: then that one is answered. Where memory is refused, none is
    /// noted for it.
    pub fn note(
        &mut self,
        alloc: Global,
        id: &MessageId,
        index: usize,
    ) -> Result<Option<usize>, AllocError>
        ensures noted { IfOk result (λ known. IsNotedUnless known (index_of self.old) (index_of self.new) id.now index) }
        ensures fresh { OnErr result (index_of self.old id.now ≡ None) }
        ensures refused { OnErr result ((other : MessageId) → index_of self.new other ≡ index_of self.old other) }
    {
        if self.others.get(&IdKey::of(*id)).is_some() {
            return Ok(self.index_of(id));
        }
        self.note_other(alloc, id, index)
    }

    /// The same of an id that isn't among those out of order.
    fn note_other(
        &mut self,
        alloc: Global,
        id: &MessageId,
        index: usize,
    ) -> Result<Option<usize>, AllocError>
        requires { get compare_ids self.old.others id.now ≡ None }
        ensures noted { IfOk result (λ known. IsNotedUnless known (index_of self.old) (index_of self.new) id.now index) }
        ensures fresh { OnErr result (index_of self.old id.now ≡ None) }
        ensures refused { OnErr result ((other : MessageId) → index_of self.new other ≡ index_of self.old other) }
    {
        let number = id.number;
        match enter(&mut self.rising, alloc, id, Noted { number, index })? {
            NoteEntry::Entered => Ok(None),
            NoteEntry::Within(Some(known)) => Ok(Some(known)),
            NoteEntry::Within(None) => {
                self.others.insert(IdKey::of(*id), index)?;
                Ok(None)
            }
        }
    }
}

/// The index that is noted for an id among those that came in ascending order.
fn index_rising(rising: &BTreeMap<IdKey, RisingIds>, id: &MessageId) -> Option<usize>
    ensures { result ≡ index_among (get compare_ids rising.now (company_id id.now)) id.now.number }
{
    rising.get(&company_key(id))?.index_of(id.number)
}

/// Enters a note of an id among those of its company, where its number is above theirs; else says what is noted for the id.
fn enter(
    rising: &mut BTreeMap<IdKey, RisingIds>,
    alloc: Global,
    id: &MessageId,
    note: Noted,
) -> Result<NoteEntry, AllocError>
    ensures entered { IfOk result (AreEntered (get compare_ids rising.old) (get compare_ids rising.new) id.now note) }
    ensures fresh { OnErr result (index_among (get compare_ids rising.old (company_id id.now)) note.number ≡ None) }
    ensures refused { OnErr result ((other : MessageId) → get compare_ids rising.new other ≡ get compare_ids rising.old other) }
{
    if let Some(of_company) = rising.get_mut(&company_key(id)) {
        return of_company.enter(note);
    }
    let first = RisingIds::of(alloc, note)?;
    rising.insert(company_key(id), first)?;
    Ok(NoteEntry::Entered)
}

/// The id that stands for the company of one.
fn company_key(id: &MessageId) -> IdKey
    ensures { result ≡ company_id id.now }
{
    IdKey::of(MessageId { number: 0, ..*id })
}
