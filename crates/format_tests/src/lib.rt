//! The tests of the formatter: texts, and what is answered to them.
#![tactic(auto)]

#[cfg(test)]
mod layouts;
