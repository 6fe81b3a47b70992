//! What holds of every book that seats share, and of every planner.
ghost use Rattle.sessions.specs.PlannersCommit.{CertificatesAreAccepted, PlansAreAccepted};
ghost use Rattle.sessions.specs.OnlyReceipts.{ReceiptsAgree, ReceiptsAreTheHistory};

/// States two laws of a planner's commit; it does nothing.
///
/// After a begin and no other call, a commit of pairs and prices that are a certificate of the version and the moment that
/// the begin answered is accepted, unless the book is full (72) or memory is out (1). So is a commit of what `work` answers
/// for that begin's snapshot and the book's networks.
pub fn a_plan_for_the_present_is_accepted()
    ensures certificates { CertificatesAreAccepted }
    ensures plans { PlansAreAccepted }
{}

/// States two laws of receipts; it does nothing.
///
/// Receipts that have the entries of one history have one event where they have one number. Where a history has as many
/// entries as some seats have receipts, and each receipt's event is the entry of its number, as `close` says, and no two
/// receipts have one number, the history is the receipts and nothing else: each entry is the event of some seat's receipt
/// of its number.
pub fn receipts_are_the_history()
    ensures agree { ReceiptsAgree }
    ensures history { ReceiptsAreTheHistory }
{}
