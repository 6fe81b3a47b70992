//! The types of command lines.

ghost use Rattle.std.specs.Prelude.{◌≡◌, IfOk};
ghost use Rattle.line_fields.specs.LineType.{line_type_of, type_name};

use crate::LineFault;

/// What a command line is for, as its member `type` says.
#[derive(Clone, Copy)]
pub(crate) enum LineType {
    Release,
    Departure,
    YardArrival,
    YardDeparture,
    Exception,
    Arrival,
    Delivery,
    Order,
    Withdraw,
    Begin,
    Plan,
    Commit,
    Sheet,
    Network,
}

impl LineType {
    /// The type of this name, compared exactly. Another name is `UnknownType` (23).
    #[tactic(auto, unfolding(crate::specs::LineType::type_name, crate::specs::LineType::line_type_of))]
    pub(crate) fn named(name: &str) -> Result<LineType, LineFault>
        ensures meaning { result ≡ line_type_of name.now }
        ensures known { IfOk result (λ line_type. type_name line_type ≡ name.now) }
    {
        let line_type = match name {
            "release" => LineType::Release,
            "departure" => LineType::Departure,
            "yard_arrival" => LineType::YardArrival,
            "yard_departure" => LineType::YardDeparture,
            "exception" => LineType::Exception,
            "arrival" => LineType::Arrival,
            "delivery" => LineType::Delivery,
            "order" => LineType::Order,
            "withdraw" => LineType::Withdraw,
            "begin" => LineType::Begin,
            "plan" => LineType::Plan,
            "commit" => LineType::Commit,
            "sheet" => LineType::Sheet,
            "network" => LineType::Network,
            _ => return Err(LineFault::UnknownType),
        };
        Ok(line_type)
    }
}
