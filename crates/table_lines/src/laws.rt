//! Laws of the run that solves tables. Its function does nothing: the contract is the law.
ghost use Rattle.table_lines.specs.Laws.{OutputsAreObjects, RefusalsAreRead, RepliesAreObjects};

/// Each reply to a table line, solved or refused, is the bytes of one JSON object, without a line feed inside, and a line
/// feed. A refusal reads as the object with its line's number and its text. So what a run prints, cut into lines, is one
/// object for each line that isn't blank.
pub fn solved_lines_are_json()
    ensures replies { RepliesAreObjects }
    ensures refusals { RefusalsAreRead }
    ensures outputs { OutputsAreObjects }
{}
