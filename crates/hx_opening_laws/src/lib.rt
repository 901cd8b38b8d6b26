//! Why what is found in the pairs of slot files can be taken over into a life: a resource is found once, each found backup is
//! of a resource and within the limit, and each resource of the life holds the pair in which its backup was found. Here are
//! definitions and laws alone.
#![tactic(auto)]

mod laws;

pub use laws::{a_vault_that_was_opened_begins_a_registry, what_was_found_fits_a_life};
