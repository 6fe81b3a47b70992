//! What holds of every trace.
ghost use Rattle.traces.specs.Laws.{RowsAreChained};

/// States that the rows of a trace are chained; it does nothing.
///
/// Whatever lines a trace follows: where it isn't partial then, the row before the first step is the row before the lines, that
/// before each other step is the row after the step before it, and that after the last step is the row after the lines. So no
/// change of the row is left out.
pub fn rows_are_chained()
    ensures { RowsAreChained }
{}
