//! Laws of the definitions, each as the contract of a function that does nothing.

ghost use Rattle.xe_base.specs.Calm.{CalmKeepsValid};

/// A change of the general registers, of the instruction pointer within its width and of the flags
/// that an instruction may change leaves a valid state valid.
#[tactic(auto, using(crate::proofs::CalmLaws::calm_keeps_valid))]
pub fn calm_changes_keep_states_valid()
    ensures { CalmKeepsValid }
{}
