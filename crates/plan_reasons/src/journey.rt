//! The journey of a wagon that goes.
ghost use Rattle.cost_table.specs.Plan.{IsAllowed};
ghost use Rattle.plan_reasons.specs.Journeys.{IsJourney};

use crate::certified_plan::CertifiedPlan;
use crate::reasons::{arrival, way_of};
use rail_codes::{ClassCode, Moment, OrderId, Place, WagonNumber};

/// A wagon that goes to an order.
#[derive(Clone, Copy)]
pub struct Journey {
    /// The wagon.
    pub wagon: WagonNumber,
    /// Its class.
    pub class: ClassCode,
    /// Where it stands.
    pub from: Place,
    /// Where the order wants it.
    pub to: Place,
    /// The kilometres between the two.
    pub km: u32,
    /// The minutes between the two.
    pub minutes: u32,
    /// When it is there.
    pub arrival: Moment,
    /// The order.
    pub order: OrderId,
}

/// The wagon of a pair on its way to the order: it starts at the problem's moment, or when it is ready.
pub fn journey_of(planned: &CertifiedPlan, pair: (usize, usize)) -> Journey
    requires { IsAllowed planned.now.priced.table pair }
    ensures { IsJourney planned.now.network planned.now.problem pair result }
{
    let problem = planned.problem();
    let wagon = &problem.wagons()[pair.0];
    let order = problem.orders()[pair.1].order();
    // The latest moment is one of the years that a moment may be of.
    order.latest().for_the_prover();
    let (km, minutes) = way_of(planned.tables(), wagon, order);
    let at = Moment::from_seconds(arrival(problem.at(), wagon, minutes)).unwrap();
    Journey {
        wagon: wagon.number,
        class: wagon.class,
        from: wagon.place,
        to: order.place(),
        km,
        minutes,
        arrival: at,
        order: order.id(),
    }
}
