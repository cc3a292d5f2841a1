ghost use Rattle.std.specs.Prelude.{◌≡◌};
ghost use Rattle.std.specs.List.{list_any};
ghost use Rattle.vrl_diag.specs.Refusal.{is_error};

use crate::titles::severity;
use std::fmt;
use std::marker::Model;

/// A part of a script: from `start` up to and without `end`, both in bytes of its UTF-8 from the
/// start of the script.
#[derive(Clone, Copy, Debug, PartialEq, Eq)]
pub struct Span {
    /// Where its first byte stands; the script's first byte stands at 0.
    pub start: u32,
    /// Where the byte behind its last one stands.
    pub end: u32,
}

/// Whether a diagnostic refuses the script.
#[derive(Clone, Copy, Debug, PartialEq, Eq)]
pub enum Severity {
    /// It doesn't.
    Warning,
    /// It does.
    Error,
}

impl fmt::Display for Severity {
    ghost use Rattle.std.specs.Prelude.{Some};
    ghost use Rattle.vrl_diag.specs.Rendering.{severity_word};

    ghost output = { λ severity. Some (severity_word severity) };

    fn fmt<W: fmt::Write>(&self, f: &mut fmt::Formatter<W>) -> fmt::Result {
        match self {
            Severity::Warning => write!(f, "warning"),
            Severity::Error => write!(f, "error"),
        }
    }
}

/// Something that is wrong with a script, and where.
#[derive(Clone, Copy, Debug, PartialEq, Eq)]
pub struct Diagnostic {
    /// Which rule is broken, as 103 for an assignment that can fail. A number below 1000 is that of
    /// the error reference of the Vector Remap Language (vector.dev/docs/reference/vrl/errors), and
    /// the others are this compiler's own; [`title`](crate::title) has the text of each.
    pub code: u16,
    /// The part of the script that it is about.
    pub span: Span,
}

impl Diagnostic {
    /// Whether it refuses the script: each but a 651 does. It takes no memory.
    pub fn is_error(&self) -> bool
        ensures { result ≡ is_error self.now }
    {
        severity(self.code) == Severity::Error
    }
}

/// Diagnostics in order, as they are told. A contract sees their list.
#[derive(Drop)]
pub struct Diagnostics {
    diagnostics: Vec<Diagnostic>,
}

impl Model for Diagnostics {
    ghost use Rattle.std.specs.Prelude.{List};
    ghost use Rattle.vrl_diag.specs.declared.diagnostic.Diagnostic.{Diagnostic};

    ghost Value = { List Diagnostic };

    ghost view = { λ d. d.diagnostics.items };
}

impl Diagnostics {
    /// These diagnostics, which it keeps.
    pub fn new(diagnostics: Vec<Diagnostic>) -> Diagnostics
        ensures { result ≡ diagnostics.items }
    {
        Diagnostics { diagnostics }
    }

    /// The diagnostics, borrowed.
    pub fn as_slice(&self) -> &[Diagnostic]
        ensures { result.now ≡ self.now }
    {
        &self.diagnostics
    }

    /// Whether one of them refuses the script: each but a 651 does. It takes no memory.
    pub fn has_error(&self) -> bool
        ensures { result ≡ list_any is_error self.now }
    {
        self.diagnostics.iter().any(|d| d.is_error())
    }

    /// The diagnostics, given back. It takes no memory.
    pub fn into_vec(self) -> Vec<Diagnostic>
        ensures { result.items ≡ self }
    {
        self.diagnostics
    }
}
