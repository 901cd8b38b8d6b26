//! Lists that no memory holds, for contracts that have to speak of what has happened so far.
//!
//! What a program has written to a real stream stands in no memory of the program, so its contracts find nothing there to
//! speak of. A `GhostList` is what they find. It is a field of no size, and its calls do nothing when the program runs;
//! only clauses read the list that it stands for.
//!
//! What a reader has to trust: `GhostList::new` and `GhostList::extend` alone are proved by hand, and no other code can
//! make such a list or change it. What a list says of the world is as true as the code that extends it: that code has to be
//! read, or held to a clause of its own, as the adapters of `hx_io` are.
#![tactic(auto)]

mod ghost_list;

pub use ghost_list::{GhostList, Lists};
