use std::fmt;

/// Why a line is refused. Of several the first counts.
#[derive(Clone, Copy, Debug, PartialEq, Eq)]
pub enum Reason {
    /// It has more bytes than a line may have.
    TooLong,
    /// It is no JSON text.
    NotJson,
    /// A number of its value is not a whole number of 64 bits with a sign.
    NotWhole,
    /// It has to be an envelope, and its value is not an object with exactly the members `event`
    /// and `metadata`, the latter an object.
    NotEnvelope,
    /// Its event is not of the declared kind.
    NotDeclared,
}

impl fmt::Display for Reason {
    ghost use Rattle.std.specs.Prelude.{Some};
    ghost use Rattle.vrl_run.specs.LineResult.{reason_text};

    ghost output = { λ reason. Some (reason_text reason) };

    fn fmt<W: fmt::Write>(&self, f: &mut fmt::Formatter<W>) -> fmt::Result {
        match self {
            Reason::TooLong => write!(f, "longer than 1048576 bytes"),
            Reason::NotJson => write!(f, "not JSON"),
            Reason::NotWhole => write!(f, "not whole numbers"),
            Reason::NotEnvelope => write!(f, "not an envelope"),
            Reason::NotDeclared => write!(f, "not of the declared kind"),
        }
    }
}
