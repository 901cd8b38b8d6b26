//! The tests of local history: rows of saves, what each fuse and each pick of a crash leaves, and vaults that are no history.
#![tactic(auto)]

#[cfg(test)]
mod crashes;
#[cfg(test)]
mod rows;
#[cfg(test)]
mod tables;
#[cfg(test)]
mod vaults;
