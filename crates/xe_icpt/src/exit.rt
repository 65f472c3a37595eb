//! The exit that an intercept takes.

/// An exit to the hypervisor, as the set of intercepts words it.
#[derive(Clone, Copy, PartialEq, Eq, Debug, Default)]
pub struct Exit {
    /// Why: for the SVM set EXITCODE of the APM, volume 2, appendix "SVM Intercept Exit Codes".
    pub code: u32,
    /// The first word of information.
    pub info1: u64,
    /// The second word of information.
    pub info2: u64,
}
