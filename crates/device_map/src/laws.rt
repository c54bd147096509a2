//! What is true of requests and changes. The laws have no code: they are proved for the definitions
//! that the contracts of `request_of` and `change_of` cite.

ghost use Rattle.device_map.specs.Changes.{ChangesAreTold, ChangesRepeatRequests};
ghost use Rattle.device_map.specs.Laws.{IsOneRequest};

/// For each token, each event with an actor of its own kind and numbers in range has one request: a
/// message that can be spelled, has this token and asks for exactly that event. No other message
/// does.
pub fn one_request()
    ensures { IsOneRequest }
{}

/// A change has the address and the items of the request that made it. In a till's command they ask
/// for the event of the row.
pub fn changes_repeat_requests()
    ensures { ChangesRepeatRequests }
{}

/// Of the accepted events, a dispenser gets notices of exactly those that `Event::has_change`
/// names.
pub fn changes_are_told()
    ensures { ChangesAreTold }
{}
