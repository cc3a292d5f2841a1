ghost use Rattle.std.specs.Prelude.{◌≡◌};
ghost use Rattle.fn_string.specs.Characters.{first_characters, from_character};

// The text from one of its characters on, by its place from 0; empty where it has no more.
pub(crate) fn from_character(text: &str, place: usize) -> &str
    ensures { result.now ≡ from_character place text.now }
{
    let mut left = text.chars();
    let mut count = place;
    while count > 0 {
        let Some(_) = left.next() else {
            return "";
        };
        count -= 1;
    }
    left.as_str()
}

// So many of a text's first characters; all where it has no more.
pub(crate) fn first_characters(text: &str, count: usize) -> &str
    ensures { result.now ≡ first_characters count text.now }
{
    let behind = from_character(text, count);
    &text[..text.len() - behind.len()]
}
