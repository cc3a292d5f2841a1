ghost use Rattle.std.specs.Prelude.{◌≡◌, ◌&&◌, ℕ, Bool, List, bytes_eq, codes, false, not, true, IfOk, IsErr, IsTrue, Ok};
ghost use Rattle.vrl_builtin.specs.Rows.{boolean_at};
ghost use Rattle.fn_string.specs.Case.{in_lower_case};
ghost use Rattle.fn_string.specs.Search.{compared, contains, ends_with, search_row, starts_with};
ghost use Rattle.fn_string.specs.Laws.{search-law};

use std::alloc::Global;
use vrl_builtin::{
    Applied, Arguments, Givens, OneTag, Parameter, Setting, Tags, optional, required,
};
use vrl_value::{Memory, Tag, Value};

/// A function that is told by its name and where it looks for a text in another.
pub trait SearchTest {
    /// The name, and whether the first text stands in the second.
    ghost search: { List ℕ × (List ℕ → List ℕ → Bool) };

    /// Whether it looks in copies where the case of letters makes no difference.
    ghost copies: { Bool } = { false };

    /// The function's name.
    fn name(&self) -> &'static str
        ensures { result.now ≡ search.0 };

    /// Whether the part stands in the text.
    fn holds(&self, part: &str, text: &str) -> bool
        ensures { result ≡ search.1 part.now text.now };

    /// The same where the case of ASCII letters makes no difference. `Memory`: out of memory for
    /// the copies.
    fn holds_in_any_case(&self, alloc: Global, part: &str, text: &str) -> Result<bool, Memory>
        ensures holds { IfOk result (λ holds. holds ≡ search.1 (in_lower_case part.now) (in_lower_case text.now)) }
        ensures memory { IsErr result → IsTrue copies };
}

/// The function that looks for a text in another. It never fails.
#[derive(Clone, Copy)]
pub struct Search<F>(pub F);

static PARAMETERS: [Parameter; 3] = [
    required!("value", Tags::STRING),
    required!("substring", Tags::STRING),
    optional!("case_sensitive", Tags::BOOLEAN),
];

// Whether the part stands in the text, where case makes a difference or none. `Memory`: out of
// memory for copies.
fn is_found<F: SearchTest>(
    alloc: Global,
    function: &F,
    part: &str,
    text: &str,
    sensitive: bool,
) -> Result<bool, Memory>
    ensures found { IfOk result
        (λ found. found ≡ F.search.1 (compared sensitive part.now) (compared sensitive text.now)) }
    ensures memory { IsErr result → IsTrue (F.copies && not sensitive) }
{
    if sensitive {
        Ok(function.holds(part, text))
    } else {
        function.holds_in_any_case(alloc, part, text)
    }
}

impl<F: SearchTest> OneTag for Search<F> {
    ghost one_tag_row = { λ _. search_row F.search.0 F.search.1 };

    ghost uses_memory = { λ _ arguments. F.copies && not (boolean_at 2 true arguments) };

    fn name(&self) -> &'static str {
        self.0.name()
    }

    fn parameters(&self) -> &'static [Parameter] {
        &PARAMETERS
    }

    fn tag(&self) -> Tag {
        Tag::Bool
    }

    fn may_fail(&self, _given: &Givens) -> bool {
        false
    }

    fn apply(
        &self,
        alloc: Global,
        arguments: &Arguments<'_>,
        _setting: &Setting<'_, '_>,
    ) -> Applied {
        let (text, part) = (arguments.text(0, ""), arguments.text(1, ""));
        let sensitive = arguments.boolean(2, true);
        match is_found(alloc, &self.0, part, text, sensitive) {
            Ok(found) => Applied::Value(Value::Bool(found)),
            Err(_memory) => Applied::Memory,
        }
    }

    ghost one_tag = { λ _. search-law F.search.0 F.search.1 };
}

// Whether they are equal but for the case of ASCII letters.
fn same_in_any_case(a: &[u8], b: &[u8]) -> bool
    ensures { result ≡ bytes_eq (in_lower_case a.now) (in_lower_case b.now) }
{
    a.eq_ignore_ascii_case(b)
}

/// `starts_with(value: string, substring: string, case_sensitive: boolean = true)`: boolean.
/// Whether the text begins with the substring; where `case_sensitive` is false, whatever case the
/// letters of ASCII have. It never fails. `starts_with("Abc", "aB", case_sensitive: false)` is
/// true.
#[derive(Clone, Copy)]
pub struct StartsWith;

impl SearchTest for StartsWith {
    ghost search = { (codes "starts_with", starts_with) };

    fn name(&self) -> &'static str {
        "starts_with"
    }

    fn holds(&self, part: &str, text: &str) -> bool {
        text.starts_with(part)
    }

    fn holds_in_any_case(&self, _alloc: Global, part: &str, text: &str) -> Result<bool, Memory>
        ensures { result ≡ Ok (starts_with (in_lower_case part.now) (in_lower_case text.now)) }
    {
        Ok(begins_in_any_case(part.as_bytes(), text.as_bytes()))
    }
}

// Whether the text begins with the part, whatever the case of ASCII letters.
fn begins_in_any_case(part: &[u8], text: &[u8]) -> bool
    ensures { result ≡ starts_with (in_lower_case part.now) (in_lower_case text.now) }
{
    match text.get(..part.len()) {
        Some(first) => same_in_any_case(first, part),
        None => false,
    }
}

/// `ends_with(value: string, substring: string, case_sensitive: boolean =
/// true)`: boolean. Whether the text ends with the substring; where `case_sensitive` is false,
/// whatever case the letters of ASCII have. It never fails. `ends_with("ab", "b")` is true.
#[derive(Clone, Copy)]
pub struct EndsWith;

impl SearchTest for EndsWith {
    ghost search = { (codes "ends_with", ends_with) };

    fn name(&self) -> &'static str {
        "ends_with"
    }

    fn holds(&self, part: &str, text: &str) -> bool {
        text.ends_with(part)
    }

    fn holds_in_any_case(&self, _alloc: Global, part: &str, text: &str) -> Result<bool, Memory>
        ensures { result ≡ Ok (ends_with (in_lower_case part.now) (in_lower_case text.now)) }
    {
        Ok(ends_in_any_case(part.as_bytes(), text.as_bytes()))
    }
}

// Whether the text ends with the part, whatever the case of ASCII letters.
fn ends_in_any_case(part: &[u8], text: &[u8]) -> bool
    ensures { result ≡ ends_with (in_lower_case part.now) (in_lower_case text.now) }
{
    if text.len() < part.len() {
        return false;
    }
    same_in_any_case(&text[text.len() - part.len()..], part)
}

/// `contains(value: string, substring: string, case_sensitive: boolean = true)`: boolean. Whether
/// the substring stands anywhere in the text; where `case_sensitive` is false, whatever case the
/// letters of ASCII have. It never fails. `contains("abc", "b")` is true.
#[derive(Clone, Copy)]
pub struct Contains;

impl SearchTest for Contains {
    ghost search = { (codes "contains", contains) };

    ghost copies = { true };

    fn name(&self) -> &'static str {
        "contains"
    }

    fn holds(&self, part: &str, text: &str) -> bool {
        text.contains(part)
    }

    // It looks in a copy of the text, since std has no search that takes letters of either case for
    // one.
    fn holds_in_any_case(&self, alloc: Global, part: &str, text: &str) -> Result<bool, Memory> {
        let lower_part = part.to_ascii_lowercase(alloc)?;
        let lower_text = text.to_ascii_lowercase(alloc)?;
        Ok(self.holds(lower_part.as_str(), lower_text.as_str()))
    }
}
