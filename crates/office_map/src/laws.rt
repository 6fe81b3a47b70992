//! What names on a map can't do.
ghost use Rattle.office_map.specs.Laws.{NamesStayInQuotes};

/// States that no place, class or name of an order has a quote or a backslash, so that none can end the quotes that it
/// stands in, and that a place's name has no bracket where it stands in a cell; it does nothing.
pub fn names_stay_in_quotes()
    ensures { NamesStayInQuotes }
{}
