//! What a till or a dispenser is answered about what a point does.

ghost use Rattle.std.specs.Prelude.{◌≡◌, ℕ, false};
ghost use Rattle.site_core.specs.Answers.{delivers};
ghost use Rattle.written_site.specs.SiteState.{SiteState};
ghost use Rattle.written_site.specs.SiteStep.{step_told};

use fuelling_point::PointStep;
use site_base::Answer;

/// Returns the answer to a step that ends no delivery: no sale, and no draw.
pub fn answer_to(step: &PointStep) -> Answer
    requires { delivers step.now ≡ false }
    ensures { (s : SiteState) (p growth : ℕ) → step_told s p growth step.now ≡ result }
{
    match step {
        PointStep::Moved => Answer::Done,
        PointStep::Calling => Answer::Calling,
        PointStep::Start { preset, price } => Answer::Start {
            preset: *preset,
            price: *price,
        },
        PointStep::Flowed { growth } => Answer::Flowed(*growth),
        PointStep::HungUp => Answer::HungUp,
        PointStep::NoSale => Answer::NoSale,
        PointStep::Stopped => Answer::Stopped,
        PointStep::Ending => Answer::Ending,
        // These end a delivery.
        PointStep::Sold { .. } | PointStep::Drawn { .. } => unreachable!(),
    }
}
