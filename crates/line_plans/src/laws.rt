//! What holds of the last line of every journal.
ghost use Rattle.line_plans.specs.Laws.{LastLineIsTaken};

/// States which line the last one is; it does nothing.
///
/// Whatever lines are brought to a book: where memory was refused for none of them, they are all blank and nothing has changed, or
/// the number of the last line is that of the last one that isn't blank. This line was brought to the book to which the lines
/// before it had led, and its problem is the one that is said.
pub fn last_line_is_taken()
    ensures { LastLineIsTaken }
{}
