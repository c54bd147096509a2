//! Where the point table has a line.

ghost use Rattle.std.specs.Prelude.{◌≡◌};
ghost use Rattle.fuelling_point.specs.Table.{is_listed};
ghost use Rattle.fuelling_point.specs.KeptPoints.{is_under_way};

use crate::event::PointEvent;
use site_base::PointState;

/// Does the point table list the event in this state?
pub fn is_listed(event: &PointEvent, state: PointState) -> bool
    ensures { result ≡ is_listed event.now state }
{
    match event {
        PointEvent::Online => matches!(state, PointState::Inoperative),
        PointEvent::Offline => !matches!(state, PointState::Inoperative),
        PointEvent::Open => matches!(state, PointState::Closed),
        PointEvent::Close => matches!(state, PointState::Idle),
        PointEvent::Assign => may_change_hands(state),
        PointEvent::Unassign => may_change_hands(state),
        PointEvent::Lift { .. } => matches!(state, PointState::Idle | PointState::Authorised),
        PointEvent::Release { .. } => matches!(state, PointState::Idle | PointState::Calling),
        PointEvent::TestRelease { .. } => matches!(state, PointState::Idle | PointState::Calling),
        PointEvent::ReplaceMeter => matches!(state, PointState::Inoperative | PointState::Closed),
        PointEvent::Suspend => matches!(state, PointState::Started | PointState::Fuelling),
        PointEvent::Resume => {
            matches!(
                state,
                PointState::SuspendedStarted | PointState::SuspendedFuelling
            )
        }
        PointEvent::Terminate => state == PointState::Authorised || is_under_way(state),
        PointEvent::Flow { .. } => is_under_way(state),
        PointEvent::HangUp { .. } => state == PointState::Calling || is_under_way(state),
    }
}

/// Has a fuelling started that isn't over?
pub fn is_under_way(state: PointState) -> bool
    ensures { result ≡ is_under_way state }
{
    matches!(
        state,
        PointState::Started
            | PointState::SuspendedStarted
            | PointState::Fuelling
            | PointState::SuspendedFuelling
    )
}

fn may_change_hands(state: PointState) -> bool
    ensures { result ≡ is_listed PointEvent.Assign state }
{
    matches!(
        state,
        PointState::Closed | PointState::Idle | PointState::Calling
    )
}
