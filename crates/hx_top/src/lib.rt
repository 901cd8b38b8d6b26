//! The program below its `main`: what the words ask for, what is read, played and printed, and how it ends. `top` and `top_run` are
//! the two calls on which the promises stand; `run_to_exit` is the one call that `main` makes.
#![tactic(auto)]

mod asking;
mod ends;
mod exits;
mod histories;
mod printing;
mod program;
mod reading;
mod runs;
mod telling;
mod whole;
mod words;

pub use ends::{name_of, status};
pub use exits::ExitOrder;
pub use program::{Exit, NoWords, run_to_exit, serve};
pub use runs::top_run;
pub use telling::report;
pub use whole::{End, Finished, top};
pub use words::{DiskChoice, Order, RunOrder, Task, disk_words, is_run, order_in, run_in};
