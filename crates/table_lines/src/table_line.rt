//! A table line, as it is read.

use rail_codes::{OrderId, WagonNumber};

/// A table with a plan and its prices, as a line gives them. The lists may be of any lengths, and a
/// name may be there more than once.
#[derive(Drop)]
pub struct TableLine {
    /// The wagons, in the order of `cells` and `u`.
    pub wagons: Vec<WagonNumber>,
    /// The orders, in the order of `penalties`, `lacks`, `v` and of each row of `cells`.
    pub orders: Vec<OrderId>,
    /// Per wagon the cost of each order in km, at most 1,000,000,000, and `None` where the
    /// wagon may not serve it.
    pub cells: Vec<Vec<Option<u64>>>,
    /// Per order the penalty of a missing wagon in km, at most 1,000,000,000.
    pub penalties: Vec<u64>,
    /// Per order how many wagons it lacks, 1 to 20; where the field is missing, each lacks one.
    pub lacks: Option<Vec<u32>>,
    /// The plan: which wagon goes to which order.
    pub pairs: Vec<(WagonNumber, OrderId)>,
    /// The dual price of each wagon, in km.
    pub u: Vec<u64>,
    /// The dual price of each order, in km.
    pub v: Vec<u64>,
}
