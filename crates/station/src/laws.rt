//! The laws of the station. Each is a function whose contract is the law.

ghost use Rattle.station.specs.Laws.{EachPeerIsToldItsStory, EndsLeaveTheirTill};
ghost use Rattle.station.specs.Laws.{PeersLeaveTheirTill, RequestsAreAskedInOrder};
ghost use Rattle.station.specs.Laws.{RowsAreOneHistory, StandingNoticesAreChanges};
ghost use Rattle.station.specs.Laws.{StandingNoticesTellWhatWasMissed, StationsAreNeverFull};
ghost use Rattle.station.specs.Laws.{TillsHaveSessions, WhatWasToldStays};
ghost use Rattle.station.specs.Neighbours.{DoorsStayOpen, EndsSpareTillsOfOthers};
ghost use Rattle.station.specs.Neighbours.{RequestsCostOctets, RowsComeThroughTheirDoor};
ghost use Rattle.station.specs.Neighbours.{TheStationActsAloneSo};
ghost use Rattle.station.specs.Owing.{OwedIsBounded};

/// A peer is told its story: the session text of what was heard of it, with the answers that its
/// requests were given, and the notices of its point in between, each in its place.
pub fn each_peer_is_told_its_story()
    ensures { EachPeerIsToldItsStory }
{}

/// What a peer was sent stays a prefix of its text, whatever comes until it leaves.
pub fn what_was_told_stays()
    ensures { WhatWasToldStays }
{}

/// A peer's pending output is bounded, whatever it sends, and whether or not it takes anything.
pub fn owed_is_bounded()
    ensures { OwedIsBounded }
{}

/// The rows of all peers are one history.
pub fn rows_are_one_history()
    ensures { RowsAreOneHistory }
{}

/// The end of a session signs off its till.
pub fn ends_leave_their_till()
    ensures { EndsLeaveTheirTill }
{}

/// A peer that leaves signs off its till.
pub fn peers_leave_their_till()
    ensures { PeersLeaveTheirTill }
{}

/// Each till that is signed on has an active session.
pub fn tills_have_sessions()
    ensures { TillsHaveSessions }
{}

/// Requests are asked in the order in which they are heard.
pub fn requests_are_asked_in_order()
    ensures { RequestsAreAskedInOrder }
{}

/// Whatever moves came before, if the station's book has room for the rows of one read, none of its
/// requests is answered that the book is full.
pub fn stations_are_never_full()
    ensures { StationsAreNeverFull }
{}

/// What a dispenser is sent when it comes back are changes of its point.
pub fn standing_notices_are_changes()
    ensures { StandingNoticesAreChanges }
{}

/// A dispenser that comes back with its nozzle as it last reported it knows, with what it is sent,
/// what a dispenser knows that has listened since the day's beginning.
pub fn standing_notices_tell_what_was_missed()
    ensures { StandingNoticesTellWhatWasMissed }
{}

/// Each row of a node that has a door was heard at that door, or is its session's sign-off, or is
/// one of the station's own.
pub fn rows_come_through_their_door()
    ensures { RowsComeThroughTheirDoor }
{}

/// The rows that no session asked for are sign-offs, the house till's rows at released points, and
/// Offline of dispensers without a session.
pub fn the_station_acts_alone_so()
    ensures { TheStationActsAloneSo }
{}

/// The number of requests in a stream is at most a tenth of the number of its octets.
pub fn requests_cost_octets()
    ensures { RequestsCostOctets }
{}

/// At a door with fewer than four peers an arrival has a place.
pub fn doors_stay_open()
    ensures { DoorsStayOpen }
{}

/// The end of a session signs off at most the till that it signed on last, if nobody has signed
/// that off since.
pub fn ends_spare_tills_of_others()
    ensures { EndsSpareTillsOfOthers }
{}
