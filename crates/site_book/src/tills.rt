//! How many tills are signed on.

ghost use Rattle.std.specs.Prelude.{◌≡◌, ◌<◌, ◌^◌};
ghost use Rattle.site_book.specs.SignedOn.{tills_with};

use site_base::SignChange;

/// Returns how many tills are signed on after this change, if `on` were before it.
pub fn tills_with(change: &Option<SignChange>, on: usize) -> usize
    requires { on < 64 }
    ensures { result ≡ tills_with change.now on }
{
    match change {
        Some(SignChange::On(_)) => on + 1,
        Some(SignChange::Off(_)) => on.saturating_sub(1),
        None => on,
    }
}
