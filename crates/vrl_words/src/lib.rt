//! The words that a program is called with, without its own name.
#![tactic(auto)]

use std::alloc::Global;
use std::env::FillError;
use std::rt::Env;
use std::{env, io};
use vrl_value::Memory;

/// The words behind the program's name, in order; none where one of them is not UTF-8, since then
/// they name nothing that a program here could take. The name itself is not looked at.
///
/// # Errors
///
/// [`Memory`] where memory is wanted.
pub fn words_behind_name<R: Env>(rt: &R, alloc: Global) -> Result<Vec<String>, Memory> {
    match words_of(rt, alloc) {
        Ok(words) => Ok(words),
        Err(fault) if fault.kind() == io::ErrorKind::InvalidData => Ok(Vec::new(alloc)),
        Err(_fault) => Err(Memory),
    }
}

fn words_of<R: Env>(rt: &R, alloc: Global) -> io::Result<Vec<String>> {
    let mut words = Vec::new(alloc);
    for word in env::args(&(BehindName(rt), alloc))? {
        words.push(word)?;
    }
    Ok(words)
}

// An environment whose arguments begin behind the program's name.
#[derive(Drop)]
struct BehindName<'a, R: Env>(&'a R);

impl<'a, R: Env> Env for BehindName<'a, R> {
    fn arg(&self, i: usize, buf: &mut [u8]) -> Result<usize, FillError> {
        match i.checked_add(1) {
            Some(next) => self.0.arg(next, buf),
            None => Err(FillError::NotPresent),
        }
    }

    fn var(&self, name: &str, buf: &mut [u8]) -> Result<usize, FillError> {
        self.0.var(name, buf)
    }

    fn var_at(&self, i: usize, buf: &mut [u8]) -> Result<usize, FillError> {
        self.0.var_at(i, buf)
    }
}
