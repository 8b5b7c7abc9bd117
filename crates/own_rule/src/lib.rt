// A venue under a rule of a member's own: any rule that keeps the three laws may divide, and the law over sessions goes on to hold call after call.
#![tactic(auto)]

pub mod composed;
pub mod newest_first;
#[cfg(test)]
mod sessions;
