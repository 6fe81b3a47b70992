//! What holds of every office.
ghost use Rattle.operating_db.specs.CompactLaws.{
  AlikeAnswerTheSame,
  AlikeShowTheSame,
  ClosedStayClosed,
  CompactAgrees,
  CompactBegins,
  CompactIsAlike,
  NoAnswerChanges,
  NothingIsAdded,
  NothingIsLost,
};
ghost use Rattle.operating_db.specs.Laws.{EventsKeepOffices, RostersBegin};

/// States the laws of an office; it does nothing.
///
/// A book may begin with the office of every roster: its promises agree. From any office in which they agree, whatever
/// events follow, they agree after them; the wagons are the same, in the same order; no order is lost, and none comes before an earlier
/// one.
pub fn events_keep_offices()
    ensures rosters { RostersBegin }
    ensures events { EventsKeepOffices }
{}

/// States that nothing is lost where an office forgets its closed orders; it does nothing.
///
/// A book may begin with what is left of the office where it may begin with the office. Both show the same: wagons,
/// network, open orders, the problem at each moment. Whatever events follow, each is answered alike, and the offices
/// stay alike, as long as no event names an order that was left out. A closed order stays closed.
pub fn nothing_is_lost()
    ensures agrees { CompactAgrees }
    ensures begins { CompactBegins }
    ensures alike { CompactIsAlike }
    ensures shown { AlikeShowTheSame }
    ensures answers { AlikeAnswerTheSame }
    ensures closed { ClosedStayClosed }
    ensures runs { NothingIsLost }
    ensures back { NothingIsAdded }
    ensures refused { NoAnswerChanges }
{}
