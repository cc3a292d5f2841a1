//! The tests of the libraries below the functions: values, paths, lines, devices and batches of
//! lines; kinds, what is at a path of one, the files that declare them, and states. They stand in a
//! crate of their own, since a library with a test is proved twice. And what other crates of tests
//! use.
#![tactic(auto)]

#[cfg(test)]
mod batches;
#[cfg(test)]
mod branches;
#[cfg(test)]
mod devices;
#[cfg(test)]
mod kind_files;
#[cfg(test)]
mod kinds;
#[cfg(test)]
mod lines;
mod meeting;
mod nesting;
#[cfg(test)]
mod paths;
#[cfg(test)]
mod places;
mod sharing;
#[cfg(test)]
mod states;
#[cfg(test)]
mod values;
#[cfg(test)]
mod workers;

pub use meeting::Meeting;
pub use nesting::nested_arrays;
pub use sharing::shareable;
