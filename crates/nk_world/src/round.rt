// A round of the drain: what it tries of each channel, in this order.

ghost use Rattle.std.specs.Prelude.{◌≡◌};
ghost use Rattle.nk_world.specs.Play.{round_steps};

use nk_base::Target;
use nk_plan::Step;

const ROUND: &[Step] = &[
    Step::Act,
    Step::Verdict,
    Step::Fetch,
    Step::Up,
    Step::Forward,
    Step::Main,
    Step::Back,
    Step::Release,
    Step::Begin(Target::Main),
    Step::Begin(Target::Worker(1)),
    Step::Begin(Target::Worker(2)),
    Step::Begin(Target::Worker(3)),
    Step::Begin(Target::Worker(4)),
    Step::Begin(Target::Worker(5)),
    Step::Begin(Target::Worker(6)),
    Step::Begin(Target::Worker(7)),
    Step::Begin(Target::Worker(8)),
    Step::Begin(Target::Worker(9)),
    Step::Begin(Target::Worker(10)),
    Step::Begin(Target::Worker(11)),
    Step::Begin(Target::Worker(12)),
    Step::Begin(Target::Worker(13)),
    Step::Begin(Target::Worker(14)),
    Step::Begin(Target::Worker(15)),
    Step::Begin(Target::Worker(16)),
    Step::Finish(Target::Main),
    Step::Finish(Target::Worker(1)),
    Step::Finish(Target::Worker(2)),
    Step::Finish(Target::Worker(3)),
    Step::Finish(Target::Worker(4)),
    Step::Finish(Target::Worker(5)),
    Step::Finish(Target::Worker(6)),
    Step::Finish(Target::Worker(7)),
    Step::Finish(Target::Worker(8)),
    Step::Finish(Target::Worker(9)),
    Step::Finish(Target::Worker(10)),
    Step::Finish(Target::Worker(11)),
    Step::Finish(Target::Worker(12)),
    Step::Finish(Target::Worker(13)),
    Step::Finish(Target::Worker(14)),
    Step::Finish(Target::Worker(15)),
    Step::Finish(Target::Worker(16)),
    Step::Read(1),
    Step::Read(2),
    Step::Read(3),
    Step::Read(4),
    Step::Read(5),
    Step::Read(6),
    Step::Read(7),
    Step::Read(8),
];

/// The steps that a round tries.
#[tactic(auto, unfolding(crate::specs::Play::round_steps))]
pub(crate) fn round_steps() -> &'static [Step]
    ensures { result.now ≡ round_steps }
{
    ROUND
}
