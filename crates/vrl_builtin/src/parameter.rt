use crate::tags::Tags;

/// A parameter of a function.
#[derive(Clone, Copy)]
pub struct Parameter {
    /// Its name, by which a call may give its argument.
    pub name: &'static str,
    /// The tags that an argument may have.
    pub allowed: Tags,
    /// Each call gives an argument for it.
    pub required: bool,
    /// Its argument must be written as a literal.
    pub literal: bool,
}

/// A parameter whose argument must be given: its name, and the tags that are allowed.
#[macro_export]
macro_rules! required {
    ($name:expr, $allowed:expr) => {
        $crate::Parameter {
            name: $name,
            allowed: $allowed,
            required: true,
            literal: false,
        }
    };
}

/// A parameter whose argument may be left out: its name, and the tags that are allowed.
#[macro_export]
macro_rules! optional {
    ($name:expr, $allowed:expr) => {
        $crate::Parameter {
            name: $name,
            allowed: $allowed,
            required: false,
            literal: false,
        }
    };
}

/// A parameter whose argument must be given, and written as a literal: its name, and the tags that
/// are allowed.
#[macro_export]
macro_rules! required_literal {
    ($name:expr, $allowed:expr) => {
        $crate::Parameter {
            name: $name,
            allowed: $allowed,
            required: true,
            literal: true,
        }
    };
}

/// A parameter whose argument may be left out, and must be written as a literal where it is given:
/// its name, and the tags that are allowed.
#[macro_export]
macro_rules! optional_literal {
    ($name:expr, $allowed:expr) => {
        $crate::Parameter {
            name: $name,
            allowed: $allowed,
            required: false,
            literal: true,
        }
    };
}
