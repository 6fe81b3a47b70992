//! Checks a plan against its dual prices: a yes shows that no plan of the table costs less, whoever made the prices.
//! Pairs may be given by their positions, or by the names of a wagon and an order. A snapshot is the problem of a book's
//! version; it makes the commit of a plan and its prices.
#![tactic(auto)]

mod certified;
mod checker;
mod limits;
mod named_check;
mod positions;
mod prices;
mod slackness;
mod snap;

pub use certified::Certified;
pub use checker::check;
pub use faults::{CheckFault, NamedFault};
pub use limits::{Limits, MAX_ENTRIES, MAX_KEPT_PROBLEMS};
pub use named_check::check_named;
pub use positions::{order_name, pairs_by_name, positions_of, wagon_name};
pub use prices::Prices;
pub use slackness::{certified_cost, certified_pair_cost};
pub use snap::Snap;
