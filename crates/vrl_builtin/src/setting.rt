use vrl_pattern::Searches;
use vrl_value::Moment;

/// What a call finds beside its arguments.
#[derive(Clone, Copy)]
pub struct Setting<'a, 'r> {
    /// The moment of the line that the script runs over.
    pub moment: Moment,
    /// The regexes of the script, and what their searches write to.
    pub searches: &'a Searches<'r>,
}
