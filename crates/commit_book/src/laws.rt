//! What holds of every book.
ghost use Rattle.commit_book.specs.Headline.{Headline};

/// States the headline; it does nothing.
///
/// Whatever roster, networks and limits a book is given, whatever is called and wherever memory runs out: each commit
/// that it accepts gives distinct wagons, free in the version that the commit names, to waiting orders that they suit
/// and reach in time, no order more than it lacks; no such distribution of that version has a lower sum of empty
/// kilometres and refusal penalties, as the recorded prices show. In every version no two orders have one name, no
/// wagon is promised to two orders or twice to one, and the wagons promised to an order and those that filled it are
/// together at most as many as it wants; none is promised to a withdrawn one.
pub fn every_commit_is_proved_least()
    ensures { Headline }
{}
