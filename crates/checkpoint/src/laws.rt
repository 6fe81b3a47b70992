//! What holds of the lines of every file.
ghost use Rattle.checkpoint.specs.Laws.{CheckpointsAreRead};

/// States the law of checkpoints; it does nothing.
///
/// Lines are read as an office exactly where they are a checkpoint of it.
pub fn checkpoints_are_read()
    ensures { CheckpointsAreRead }
{}
