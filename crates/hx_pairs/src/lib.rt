//! Who holds which pair of slot files, and why whatever a crash leaves in the pairs is allowed.
//!
//! The invariant of the pairs towards the history of a life is kept by each event, and it is enough: each value that a pair
//! can show is one that its resource may come back with. Here are definitions and laws alone.
#![tactic(auto)]

mod laws;

pub use laws::{
    a_free_pair_is_there_where_the_rules_want_one, a_registry_begins_with_an_opened_vault,
    an_opened_vault_keeps_the_pairs, what_the_pairs_show_is_allowed,
    who_holds_nothing_gives_its_pair_back,
};
