//! Landing policy: a text of rules, who may change what, and what they decide. The rules are looked up by caller and path,
//! so that a decision costs two look-ups for each element of a path, however many rules there are.
#![tactic(auto)]

mod bookmark_text;
mod denied;
mod firsts;
mod line;
mod matching;
mod policy_fault;
mod reading;
mod rule;
mod rules;
mod ruling;
mod tables;

pub use denied::Denied;
pub use policy_fault::PolicyFault;
pub use reading::{LONGEST_POLICY, MOST_RULES};
pub use rules::Rules;
pub use ruling::Ruling;
