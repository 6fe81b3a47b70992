//! Dual prices.
/// Dual prices of a table, in kilometres.
#[derive(Drop)]
pub struct Prices {
    /// One price per wagon, in the table's order.
    pub u: Vec<u64>,
    /// One price per order, in the table's order.
    pub v: Vec<u64>,
}
