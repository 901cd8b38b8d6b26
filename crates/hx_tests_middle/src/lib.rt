//! The tests of scripts, reports and traces, of the core, the registry and the hub, and of windows and workers at work.
#![tactic(auto)]

#[cfg(test)]
mod actors;
#[cfg(test)]
mod check;
#[cfg(test)]
mod cores;
#[cfg(test)]
mod founding;
#[cfg(test)]
mod hub;
#[cfg(test)]
mod refusals;
#[cfg(test)]
mod registry;
#[cfg(test)]
mod report;
#[cfg(test)]
mod script;
#[cfg(test)]
mod traces;
#[cfg(test)]
mod whole;
#[cfg(test)]
mod words;
