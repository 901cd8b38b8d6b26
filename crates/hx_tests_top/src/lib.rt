//! Tests of the whole program with its streams in memory: sessions worked by hand, how it ends, disks and streams that fail,
//! folders of files, and windows at once.
#![tactic(auto)]

#[cfg(test)]
mod failing;
#[cfg(test)]
mod files;
#[cfg(test)]
mod fuses;
#[cfg(test)]
mod gates;
#[cfg(test)]
mod planting;
#[cfg(test)]
mod playing;
#[cfg(test)]
mod sessions;
#[cfg(test)]
mod sessions_of_backups;
#[cfg(test)]
mod sessions_of_blocks;
#[cfg(test)]
mod sessions_of_ends;
#[cfg(test)]
mod sessions_of_exits;
#[cfg(test)]
mod sessions_of_guards;
#[cfg(test)]
mod sessions_of_histories;
#[cfg(test)]
mod sessions_of_saves;
#[cfg(test)]
mod stores;
#[cfg(test)]
mod streams;
