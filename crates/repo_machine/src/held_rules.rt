//! The policy that is held.

use land_policy::Rules;

/// The rules of the last policy, which were read before it was entered, and its number in the log.
#[derive(Drop)]
pub(crate) struct HeldRules {
    pub(crate) rules: Rules,
    pub(crate) number: u64,
}
