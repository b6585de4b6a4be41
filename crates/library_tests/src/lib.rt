//! Tests of libraries that a build stands on: waves on threads, the disk, files and devices.
#![tactic(auto)]

#[cfg(test)]
mod devices;
#[cfg(test)]
mod disk;
#[cfg(test)]
mod disk_keeper;
#[cfg(test)]
mod drawn;
#[cfg(test)]
mod files;
#[cfg(test)]
mod halved;
#[cfg(test)]
mod pieces;
