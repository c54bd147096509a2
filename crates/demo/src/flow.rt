//! How much flows at a step that pumps.

ghost use Rattle.std.specs.Prelude.{◌≡◌, ◌≤◌, IfSome, IfNone};
ghost use Rattle.site_base.specs.declared.amounts.TheConstants.{GREATEST_PRICE};
ghost use Rattle.site_base.specs.Amounts.{IsGreatestVolume};
ghost use Rattle.demo.specs.Flow.{is_under_way, IsFlow, IsFree, IsMost, IsRoom};
ghost use Rattle.demo.specs.Flow.{IsUnlimited};

use site_base::{
    Cents, GREATEST_READING, Millilitres, Mills, PointState, PointView, Preset, greatest_ml,
};

/// Returns how much flows if `asked` was asked for, the meter reads `reading`, and the point was
/// last seen as `seen` (None: there is no such point). It is as much as was asked for, limited by
/// what is left under the preset of a fuelling in progress, and by what the meter can still count.
pub fn flow_of(asked: Millilitres, reading: Millilitres, seen: &Option<PointView>) -> u64
    ensures { IsFlow asked reading seen.now result }
{
    let most = asked.get().min(GREATEST_READING - reading.get());
    match seen {
        Some(view) => match room_left(view) {
            Some(room) => most.min(room),
            None => most,
        },
        None => most,
    }
}

/// How much more may flow within the preset of the fuelling under way; None where nothing limits
/// it.
fn room_left(view: &PointView) -> Option<u64>
    ensures limited { IfSome result (λ room. IsRoom view.now room) }
    ensures free { IfNone result (IsUnlimited view.now) }
{
    if !is_under_way(view.state) {
        return None;
    }
    let most = most_of(&view.preset, view.price)?;
    Some(most.saturating_sub(view.volume))
}

/// Is a fuelling under way in this state?
fn is_under_way(state: PointState) -> bool
    ensures { result ≡ is_under_way state }
{
    matches!(
        state,
        PointState::Started
            | PointState::SuspendedStarted
            | PointState::Fuelling
            | PointState::SuspendedFuelling
    )
}

/// The greatest volume within a preset at this price; None where each volume is.
fn most_of(preset: &Preset, price: u32) -> Option<u64>
    ensures limited { IfSome result (λ most. IsMost preset.now price most) }
    ensures free { IfNone result (IsFree preset.now price) }
{
    match preset {
        Preset::Unset => None,
        Preset::Volume(most) => Some(u64::from(*most)),
        Preset::Money(cents) => {
            let price = Mills::new(price)?;
            Some(volume_for(*cents, price))
        }
    }
}

/// How much so many cents buy at this price.
fn volume_for(cents: u32, price: Mills) -> u64
    ensures greatest { IsGreatestVolume cents price result }
    ensures range { (1 ≤ price) × (price ≤ GREATEST_PRICE) }
{
    let _ = price.get();
    match Cents::new(u64::from(cents)) {
        Some(cents) => greatest_ml(cents, price),
        None => unreachable!(),
    }
}
