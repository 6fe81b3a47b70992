//! The ids of one company's messages that came in ascending order.
ghost use Rattle.std.specs.Prelude.{◌≡◌, ◌<◌, ◌∷◌, [], All, IfOk, IsTrue, None, OnErr};
ghost use Rattle.commit_book.specs.inner.Noted.{Ascend, index_at, index_in};
ghost use Rattle.commit_book.specs.inner.NoteEntry.{IsNoteEntry};

use std::alloc::{AllocError, Global};
use std::marker::Model;

/// A company's number for a message, and the index of the message among the events.
#[derive(Clone, Copy)]
pub(crate) struct Noted {
    pub(crate) number: u32,
    pub(crate) index: usize,
}

/// What came of a note that was to be entered.
#[derive(Clone, Copy)]
pub(crate) enum NoteEntry {
    /// It is the last one now.
    Entered,
    /// Its number isn't above all others, and this is what is noted for it, if anything is.
    Within(Option<usize>),
}

/// What is noted of one company's messages, ascending by the company's numbers for them. A contract sees the notes.
#[derive(Drop)]
pub(crate) struct RisingIds {
    notes: Vec<Noted>,
}

impl Model for RisingIds {
    ghost use Rattle.std.specs.Prelude.{List};
    ghost use Rattle.commit_book.specs.inner.Noted.{Ascend};
    ghost use Rattle.commit_book.specs.declared.rising_ids.Noted.{Noted};

    ghost Value = { List Noted };

    ghost view = { λ rising. rising.notes.items };

    ghost invariant = { λ rising. Ascend rising.notes.items };
}

impl RisingIds {
    /// One note.
    pub fn of(alloc: Global, note: Noted) -> Result<RisingIds, AllocError>
        ensures { IfOk result (λ rising. rising ≡ note ∷ []) }
    {
        let mut notes = Vec::new(alloc);
        notes.push(note)?;
        Ok(RisingIds { notes })
    }

    /// The index that is noted for a number.
    pub fn index_of(&self, number: u32) -> Option<usize>
        ensures { result ≡ index_in self.now number }
    {
        index_at(&self.notes, place_of(&self.notes, number))
    }

    /// Enters a note, as the last one, where its number is above all others; else says what is noted for that number.
    pub fn enter(&mut self, note: Noted) -> Result<NoteEntry, AllocError>
        ensures entered { IfOk result (λ entry. IsNoteEntry self.old note entry self.new) }
        ensures fresh { OnErr result (index_in self.old note.number ≡ None) }
        ensures refused { OnErr result (self.new ≡ self.old) }
    {
        if !are_below(&self.notes, note.number) {
            return Ok(NoteEntry::Within(self.index_of(note.number)));
        }
        self.notes.push(note)?;
        Ok(NoteEntry::Entered)
    }
}

/// Whether the numbers of ascending notes are below one: only the last is looked at.
fn are_below(notes: &[Noted], number: u32) -> bool
    requires { Ascend notes.now }
    ensures { IsTrue result → All (λ note. note.number < number) notes.now }
{
    match notes.last() {
        Some(last) => last.number < number,
        None => true,
    }
}

/// Where the note of a number stands among ascending notes.
fn place_of(notes: &[Noted], number: u32) -> Option<usize>
    requires { Ascend notes.now }
    ensures { index_at notes.now result ≡ index_in notes.now number }
{
    notes.binary_search_by_key(&number, |note| note.number).ok()
}

/// The index of the note at a place, where there is one.
fn index_at(notes: &[Noted], place: Option<usize>) -> Option<usize>
    ensures { result ≡ index_at notes.now place }
{
    Some(notes.get(place?)?.index)
}
