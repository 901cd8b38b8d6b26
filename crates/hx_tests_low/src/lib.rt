//! Tests of the crates of texts, disks, backups and copies: rows, vectors and failures that no clause says.
#![tactic(auto)]

#[cfg(test)]
mod base;
#[cfg(test)]
mod copy;
#[cfg(test)]
mod disk_laws;
#[cfg(test)]
mod etag;
#[cfg(test)]
mod events;
#[cfg(test)]
mod io;
#[cfg(test)]
mod memdisk;
#[cfg(test)]
mod meta;
#[cfg(test)]
mod passes;
#[cfg(test)]
mod record;
#[cfg(test)]
mod restore;
#[cfg(test)]
mod seq;
#[cfg(test)]
mod slots;
#[cfg(test)]
mod tables;
#[cfg(test)]
mod tracker;
#[cfg(test)]
mod vault;
