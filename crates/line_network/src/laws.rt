//! Laws of distances, which hold of every network. Their functions do nothing: the contract is the law.
ghost use Rattle.line_network.specs.Laws.{TriangleHolds, DistanceIsUnique, PlaceIsAtItself};

/// The way over a third place is not shorter.
pub fn triangle_holds()
    ensures { TriangleHolds }
{}

/// Two places have one distance at most.
pub fn distance_is_unique()
    ensures { DistanceIsUnique }
{}

/// A place of the network is at (0, 0) from itself.
pub fn place_is_at_itself()
    ensures { PlaceIsAtItself }
{}
