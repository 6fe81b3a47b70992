//! The state of an order.

/// The state of an order.
#[derive(Clone, Copy)]
pub enum OrderState {
    /// It lacks a wagon.
    Waiting,
    /// All the wagons that it lacked are promised.
    Promised,
    /// Each wagon that it wants has been delivered.
    Filled,
    /// It is taken back.
    Withdrawn,
}
