ghost use Rattle.std.specs.Prelude.{◌≡◌, option_map};
ghost use Rattle.remap_fmt.specs.Answer.{script_in, texts};

// The script that the words name: they are one word, which is not empty and does not begin with
// `-`. `None`: they are refused.
pub(crate) fn script_in(words: &[String]) -> Option<&str>
    ensures { option_map (λ name. name.now) result ≡ script_in (texts words.now) }
{
    let (word, others) = words.split_first()?;
    if !others.is_empty() {
        return None;
    }
    match word.as_bytes().first() {
        None | Some(b'-') => None,
        Some(_) => Some(word),
    }
}
