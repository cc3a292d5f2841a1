//! The tests of scripts: as texts, with their diagnostics, tokens, trees and regexes; what is
//! compiled of them; runs, and what they leave; how requests are answered; and the program's call:
//! its words, and the whole of it over devices that come in pieces and fail. They stand in one
//! crate, since each crate of tests is compiled with all that it links.
#![tactic(auto)]

#[cfg(test)]
mod answers;
#[cfg(test)]
mod branches;
#[cfg(test)]
mod calls;
#[cfg(test)]
mod diagnostics;
#[cfg(test)]
mod faults;
#[cfg(test)]
mod forms;
#[cfg(test)]
mod generated;
#[cfg(test)]
mod invocations;
#[cfg(test)]
mod judgement;
#[cfg(test)]
mod lines;
#[cfg(test)]
mod parsing;
#[cfg(test)]
mod patterns;
#[cfg(test)]
mod program;
#[cfg(test)]
mod rows;
#[cfg(test)]
mod running;
#[cfg(test)]
mod scripts;
#[cfg(test)]
mod stores;
#[cfg(test)]
mod tokens;
#[cfg(test)]
mod trees;
#[cfg(test)]
mod words;
