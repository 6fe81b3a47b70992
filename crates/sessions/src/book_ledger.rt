//! The ledger of a shared book.
ghost use Rattle.std.specs.Prelude.{[]};
ghost use Rattle.commit_book.specs.Setting.{Setting};

use std::marker::Brand;
use std::sync::ledger::Ledger;

/// The ledger of a shared book. It stands for the setting of that book, too: its first office, networks and limits. So a contract
/// can name the setting, while it can't name the book behind the lock.
pub trait BookLedger: Ledger {
    ghost setting: { Setting };
}

impl BookLedger for Brand {
    ghost setting = { record { first = record { wagons = []; orders = []; network = 0 }; networks = []; entries = 0; kept = 0 } };
}
