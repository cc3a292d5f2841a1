ghost use Rattle.std.specs.Prelude.{◌≡◌, ℕ, List, IfOk};
ghost use Rattle.vrl_builtin.specs.OfText.{of_text_row, of_text-law};

use crate::arguments::Arguments;
use crate::failing::Applied;
use crate::given::Givens;
use crate::one_tag::OneTag;
use crate::parameter::Parameter;
use crate::required;
use crate::setting::Setting;
use crate::tags::Tags;
use std::alloc::Global;
use vrl_value::{Chars, Memory, Tag};

/// A function that is told by its name and the text that it makes of another.
pub trait FromText {
    /// The name, and the text that is made.
    ghost from_text: { List ℕ × (List ℕ → List ℕ) };

    /// The function's name.
    fn name(&self) -> &'static str
        ensures { result.now ≡ from_text.0 };

    /// The text that is made. `Memory`: want of memory.
    fn make(&self, alloc: Global, text: &str) -> Result<Chars, Memory>
        ensures { IfOk result (λ made. made ≡ from_text.1 text.now) };
}

/// The function that makes one text of another. It never fails.
#[derive(Clone, Copy)]
pub struct OfText<F>(pub F);

static PARAMETERS: [Parameter; 1] = [required!("value", Tags::STRING)];

impl<F: FromText> OneTag for OfText<F> {
    ghost one_tag_row = { λ _. of_text_row F.from_text.0 F.from_text.1 };

    fn name(&self) -> &'static str {
        self.0.name()
    }

    fn parameters(&self) -> &'static [Parameter] {
        &PARAMETERS
    }

    fn tag(&self) -> Tag {
        Tag::Text
    }

    fn may_fail(&self, _given: &Givens) -> bool {
        false
    }

    fn apply(
        &self,
        alloc: Global,
        arguments: &Arguments<'_>,
        _setting: &Setting<'_, '_>,
    ) -> Applied {
        Applied::text(self.0.make(alloc, arguments.text(0, "")))
    }

    ghost one_tag = { λ _. of_text-law F.from_text.0 F.from_text.1 };
}
