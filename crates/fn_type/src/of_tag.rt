ghost use Rattle.std.specs.Prelude.{◌≡◌, ℕ, List};
ghost use Rattle.vrl_value.specs.declared.value.Tag.{Tag};

use vrl_value::Tag;

/// A function that is told by its name and a tag.
pub trait OfTag {
    /// The name and the tag.
    ghost of_tag: { List ℕ × Tag };

    /// The function's name.
    fn name(&self) -> &'static str
        ensures { result.now ≡ of_tag.0 };

    /// The tag.
    fn tag(&self) -> Tag
        ensures { result ≡ of_tag.1 };
}
