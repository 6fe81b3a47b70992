//! What a worker passes before the work of each place.
ghost use Rattle.std.specs.Prelude.{◌≡◌};
ghost use Rattle.line_network.specs.inner.Entered.{place_of};

/// What a worker passes before it searches the walks to each place, once for each.
pub trait Gate {
    /// Is called with the place's number, in the worker's thread.
    fn enter(&self, origin: usize);
}

/// A gate that does nothing, for programs.
#[derive(Clone, Copy)]
pub struct OpenGate;

impl Gate for OpenGate {
    fn enter(&self, _origin: usize) {}
}

/// That a gate was entered for a place. Only entering makes one, and the search of the place uses it up, so no place is
/// searched before its gate is entered.
pub(crate) struct Entered {
    origin: usize,
}

impl Entered {
    /// Enters a gate for this place.
    pub(crate) fn through<G: Gate>(gate: &G, origin: usize) -> Entered
        ensures { place_of result ≡ origin }
    {
        gate.enter(origin);
        Entered { origin }
    }

    /// The place's number.
    pub(crate) fn into_place(self) -> usize
        ensures { result ≡ place_of self }
    {
        let Entered { origin } = self;
        origin
    }
}
