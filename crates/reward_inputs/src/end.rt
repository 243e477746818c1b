//! This module says how loading ends if it gives nothing.

use formula_sets::PoseFault;
use game_outside::OutOfMemory;
use inputs::End;
use reward_refusals::RewardRefusal;

/// Loading a question of rewards ends in one of these ways if it gives nothing.
#[derive(Drop)]
pub enum RewardEnd {
    OutOfMemory,
    ReadFault,
    Refused(RewardRefusal),
}

impl From<End> for RewardEnd {
    ghost use Rattle.std.specs.Prelude.{◌≡◌};
    ghost use Rattle.reward_inputs.specs.Loading.{reward_end};

    ghost from_gives = { λ end other. other ≡ reward_end end };

    fn from(end: End) -> RewardEnd {
        match end {
            End::OutOfMemory => RewardEnd::OutOfMemory,
            End::ReadFault => RewardEnd::ReadFault,
            End::Refused(refusal) => RewardEnd::Refused(RewardRefusal::Shared(refusal)),
        }
    }
}

impl From<OutOfMemory> for RewardEnd {
    ghost use Rattle.std.specs.Prelude.{◌≡◌};
    ghost use Rattle.reward_inputs.specs.declared.end.RewardEnd.TheVariants.{OutOfMemory};

    ghost from_gives = { λ _ end. end ≡ OutOfMemory };

    fn from(_: OutOfMemory) -> RewardEnd {
        RewardEnd::OutOfMemory
    }
}

impl From<PoseFault> for RewardEnd {
    ghost use Rattle.std.specs.Prelude.{◌≡◌};
    ghost use Rattle.inputs.specs.Loading.{end_of_question};
    ghost use Rattle.reward_inputs.specs.Loading.{reward_end};

    ghost from_gives = { λ fault end. end ≡ reward_end (end_of_question fault) };

    fn from(fault: PoseFault) -> RewardEnd {
        RewardEnd::from(End::from(fault))
    }
}
