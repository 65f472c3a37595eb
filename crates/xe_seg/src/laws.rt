//! Laws of the definitions, each as the contract of a function that does nothing.

ghost use Rattle.xe_seg.specs.Descriptors.{attr_of};
ghost use Rattle.xe_seg.specs.Loading.{DataLoads, StackLoads, NullLoads, NullStackLoads, LoadsKeepRules};
ghost use Rattle.xe_seg.specs.Passing.{ProtectedAccesses, RealAccesses, LongAccesses, CanonicalAddresses, FailedAccesses, TargetsPass, AttributesOf};
ghost use Rattle.xe_seg.specs.declared.descriptor.Descriptor.{Descriptor};

/// An access passes exactly where each of its bytes does, and its segment allows it: by mode. Then
/// its answer is base + offset.
#[tactic(auto, using(crate::proofs::PassingLaws::protected_accesses, crate::proofs::PassingLaws::real_accesses, crate::proofs::PassingLaws::long_accesses))]
pub fn accesses_pass_by_each_byte()
    ensures protected { ProtectedAccesses }
    ensures real { RealAccesses }
    ensures long { LongAccesses }
{}

/// An access that fails is #GP(0), or #SS(0) through SS; in real mode without the code.
#[tactic(auto, using(crate::proofs::PassingLaws::failed_accesses))]
pub fn failed_accesses_have_code_zero()
    ensures { FailedAccesses }
{}

/// Code can go on exactly at a canonical offset in 64-bit mode, and within the limit elsewhere.
#[tactic(auto, using(crate::proofs::PassingLaws::targets_pass))]
pub fn targets_pass_where_code_can_go_on()
    ensures { TargetsPass }
{}

/// The canonical addresses are the lowest and the highest of the 2^64.
#[tactic(auto, using(crate::proofs::PassingLaws::canonical_addresses))]
pub fn canonical_addresses_are_the_two_ends()
    ensures { CanonicalAddresses }
{}

/// A load outside real mode is taken exactly where the segment serves for its register: by present,
/// S, type and privilege levels; and a null selector always, or in SS only in 64-bit mode below level 3.
#[tactic(auto, using(crate::proofs::LoadingLaws::data_loads, crate::proofs::LoadingLaws::stack_loads, crate::proofs::LoadingLaws::null_loads, crate::proofs::LoadingLaws::null_stack_loads))]
pub fn loads_pass_where_the_segment_serves()
    ensures data { DataLoads }
    ensures stack { StackLoads }
    ensures null { NullLoads }
    ensures null_stack { NullStackLoads }
{}

/// What a load leaves keeps the rules of a valid state on segment registers.
pub fn loads_keep_the_rules_of_segments()
    ensures { LoadsKeepRules }
{}

/// The attributes that a descriptor gives are its fields.
#[tactic(auto, using(crate::proofs::DescriptorLaws::attributes_of))]
pub fn attributes_are_fields()
    ensures { (d : Descriptor) → AttributesOf d }
{}
