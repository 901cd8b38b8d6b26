//! Scripts and traces as bytes, read back exactly, and the script that is generated.
//!
//! What reads a line and its fields is public too, for other formats of this kind.
#![tactic(auto)]

mod declarations;
mod draft;
mod events;
mod fields;
mod generator;
mod laws;
mod outcomes;
mod parts;
mod reader;
mod script;
mod trace;
mod trace_reader;
mod values;
mod why;

pub use declarations::{ranked, settled};
pub use fields::{behind_header, cut_at, is, split_fields};
pub use generator::made;
pub use laws::{a_line_reads_as_its_event, there_is_one_life_more_than_ends};
pub use reader::{SCRIPT_MAX, read_script};
pub use script::{Form, Plant, Script, Step};
pub use trace::{Trace, TraceLife};
pub use trace_reader::read_trace;
pub use values::{number_in, text_in};
pub use why::{LineError, ScriptError, Why};
