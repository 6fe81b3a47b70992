//! What holds of the notes of every event.
ghost use Rattle.journal_notes.specs.Laws.{PromisesAreNoted};

/// States that no change of a promise is left out; it does nothing.
///
/// Wherever the promise of a wagon differs between the office before an event and the one after it, a note names the wagon, and the
/// order that it is promised to then; or, where it is promised to none, the order that it was promised to.
pub fn promises_are_noted()
    ensures { PromisesAreNoted }
{}
