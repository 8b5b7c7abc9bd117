// Cases that no stored session can show: short reports, many build lines, many definitions, a call copied, and sessions served from memory.
#![tactic(auto)]

#[cfg(test)]
mod builds;
#[cfg(test)]
mod clones;
#[cfg(test)]
mod definitions;
#[cfg(test)]
mod memory;
#[cfg(test)]
mod reports;
