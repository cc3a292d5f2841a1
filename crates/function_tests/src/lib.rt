//! The tests of the language's functions: how a call's arguments are bound to the parameters of
//! one; and each with arguments in text, what it answers, and what is known before it is called.
#![tactic(auto)]

#[cfg(test)]
mod binding;
#[cfg(test)]
mod calling;
#[cfg(test)]
mod codecs;
#[cfg(test)]
mod fitting;
#[cfg(test)]
mod lists;
#[cfg(test)]
mod numbers;
#[cfg(test)]
mod objects;
#[cfg(test)]
mod strings;
#[cfg(test)]
mod types;
