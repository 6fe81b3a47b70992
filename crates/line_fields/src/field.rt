//! The names of the members of a line.

/// A member's name in a command line, a table line or a line of a checkpoint.
#[derive(Clone, Copy, Debug, PartialEq, Eq, PartialOrd, Ord)]
pub enum Field {
    /// `type`: what a command line is for.
    TypeName,
    /// `company`: who sent a message.
    Company,
    /// `number`: the sender's number for a message.
    Number,
    /// `wagon`: the number of a wagon.
    Wagon,
    /// `place`: where a wagon is, or where an order wants its wagons.
    Place,
    /// `moment`: when something happened to a wagon.
    Moment,
    /// `hold`: whether an exception holds the wagon.
    Hold,
    /// `order`: the name of an order.
    Order,
    /// `classes`: the classes of wagons that an order accepts.
    Classes,
    /// `load`: what each wagon of an order is to carry, in kg.
    Load,
    /// `latest`: the last moment at which a wagon may reach its order.
    Latest,
    /// `penalty`: what each missing wagon of an order costs, in km.
    Penalty,
    /// `at`: the moment of a problem.
    At,
    /// `version`: the version of the office whose problem was planned.
    Version,
    /// `pairs`: which wagon goes to which order.
    Pairs,
    /// `u`: the dual prices of the wagons, in km.
    WagonPrices,
    /// `v`: the dual prices of the orders, in km.
    OrderPrices,
    /// `revision`: the number of a network.
    Revision,
    /// `wagons`: how many wagons an order wants, or the wagons of a table.
    Wagons,
    /// `orders`: the orders of a table.
    Orders,
    /// `cells`: the costs of a table, in km.
    Cells,
    /// `penalties`: what a missing wagon of each order of a table costs, in km.
    Penalties,
    /// `lacks`: how many wagons each order of a table lacks.
    Lacks,
    /// `format`: the number of a checkpoint's format.
    Format,
    /// `network`: the number of the network in force.
    Network,
    /// `class`: the class of a wagon.
    Class,
    /// `status`: what a wagon is doing.
    Status,
    /// `ready`: since when an empty wagon has been ready.
    Ready,
    /// `last`: the moment of a wagon's last message.
    Last,
    /// `held`: whether a wagon is held.
    Held,
    /// `promise`: the order that a wagon is promised to.
    Promise,
    /// `promised`: the wagons promised to an order.
    Promised,
    /// `filled`: the wagons that filled an order.
    Filled,
    /// `lines`: how many other lines a checkpoint has.
    Lines,
}

impl Field {
    ghost use Rattle.std.specs.Prelude.{◌≡◌};
    ghost use Rattle.line_fields.specs.Field.{field_name};

    /// The name as it stands in a line and in a refusal.
    #[tactic(auto, unfolding(crate::specs::Field::field_name))]
    pub fn name(self) -> &'static str
        ensures { result.now ≡ field_name self }
    {
        match self {
            Field::TypeName => "type",
            Field::Company => "company",
            Field::Number => "number",
            Field::Wagon => "wagon",
            Field::Place => "place",
            Field::Moment => "moment",
            Field::Hold => "hold",
            Field::Order => "order",
            Field::Classes => "classes",
            Field::Load => "load",
            Field::Latest => "latest",
            Field::Penalty => "penalty",
            Field::At => "at",
            Field::Version => "version",
            Field::Pairs => "pairs",
            Field::WagonPrices => "u",
            Field::OrderPrices => "v",
            Field::Revision => "revision",
            Field::Wagons => "wagons",
            Field::Orders => "orders",
            Field::Cells => "cells",
            Field::Penalties => "penalties",
            Field::Lacks => "lacks",
            Field::Format => "format",
            Field::Network => "network",
            Field::Class => "class",
            Field::Status => "status",
            Field::Ready => "ready",
            Field::Last => "last",
            Field::Held => "held",
            Field::Promise => "promise",
            Field::Promised => "promised",
            Field::Filled => "filled",
            Field::Lines => "lines",
        }
    }
}
