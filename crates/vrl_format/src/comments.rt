ghost use Rattle.std.specs.Prelude.{◌≡◌, ◌≤◌, ◌++◌, ◌∷◌, [], ℕ, List, IsTrue, MatchOption, OnOk, false};
ghost use Rattle.vrl_format.specs.Pieces.{is_blank, remark, remarks_in, trimmed};
ghost use Rattle.vrl_format.specs.Writing.{LacksByte, noted, writing_in};

use crate::layout::Layout;
use crate::sort::Sort;
use vrl_value::Memory;

// The text without the blank at its end. `None`: it ends with none.
fn strip_blank(text: &str) -> Option<&str>
    ensures { MatchOption result
        ((front : List ℕ) (b : ℕ) → text.now ≡ front ++ b ∷ [] → is_blank b ≡ false)
        (λ front. (b : ℕ) × (text.now ≡ front.now ++ b ∷ []) × IsTrue (is_blank b)) }
{
    if let Some(front) = text.strip_suffix(' ') {
        return Some(front);
    }
    if let Some(front) = text.strip_suffix('\t') {
        return Some(front);
    }
    text.strip_suffix('\r')
}

// The text without the blanks at its end.
fn trimmed(text: &str) -> &str
    ensures { result.now ≡ trimmed text.now }
{
    let mut rest = text;
    while let Some(front) = strip_blank(rest) {
        rest = front;
    }
    rest
}

// What a line has from its first `#` on, which is its comment.
fn comment_of(line: &str) -> Option<&str>
    requires { LacksByte 10 line.now }
    ensures { MatchOption result (remarks_in line.now ≡ [])
        (λ text. remarks_in line.now ≡ remark text.now ∷ []) }
{
    let Some(place) = line.find('#') else {
        return None;
    };
    let (_, comment) = line.split_at(place);
    Some(comment)
}

impl Layout {
    // Goes over a line that has no token, without the newline at its end.
    fn note_line(&mut self, line: &str) -> Result<(), Memory>
        requires plain { LacksByte 10 line.now }
        requires room { self.old.blocks ≤ 65536 }
        ensures { OnOk result
            (writing_in self.new ≡ noted (writing_in self.old) (remarks_in line.now)) }
    {
        match comment_of(line) {
            Some(text) => self.put(Sort::Comment, trimmed(text)),
            None => Ok(()),
        }
    }

    /// Goes over the bytes between two tokens: writes their comments, and sees their newlines.
    pub(crate) fn note(&mut self, between: &str) -> Result<(), Memory>
        requires { self.old.blocks ≤ 65536 }
        ensures { OnOk result
            (writing_in self.new ≡ noted (writing_in self.old) (remarks_in between.now)) }
    {
        let mut rest = between;
        while let Some((line, behind)) = rest.split_once('\n') {
            self.note_line(line)?;
            self.see_newline(false);
            rest = behind;
        }
        self.note_line(rest)
    }
}
