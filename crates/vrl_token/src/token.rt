ghost use Rattle.std.specs.Prelude.{◌≡◌};

use std::marker::Model;
use vrl_diag::Span;
use vrl_path::Path;
use vrl_value::{Chars, Moment};

/// A variable in a text, as `{{ name }}`, and the text behind it.
#[derive(Drop)]
pub struct Hole {
    /// The name of the variable.
    pub name: Chars,
    /// How many bytes stand from the first one of the name to the end of the text's spelling, its
    /// closing quote with it.
    pub distance: usize,
    /// The text up to the next variable or the end, with its escapes replaced by what they stand
    /// for. It may be empty.
    pub behind: Chars,
}

/// Variables in a text, in the order in which they stand. A contract sees their list.
pub struct Holes {
    holes: Vec<Hole>,
}

// Written out, so that variables are let go by one call.
impl Drop for Holes {
    fn drop(self) {
        let Holes { holes: _ } = self;
    }
}

impl Model for Holes {
    ghost use Rattle.std.specs.Prelude.{List};
    ghost use Rattle.vrl_token.specs.declared.token.Hole.{Hole};

    ghost Value = { List Hole };

    ghost view = { λ holes. holes.holes.items };
}

impl Holes {
    /// These variables, which it keeps.
    pub fn new(holes: Vec<Hole>) -> Holes
        ensures { result ≡ holes.items }
    {
        Holes { holes }
    }

    /// The variables, borrowed.
    pub fn as_slice(&self) -> &[Hole]
        ensures { result.now ≡ self.now }
    {
        &self.holes
    }
}

/// A token of a script, with what its spelling says.
pub enum Token {
    /// `".."` without variables in it, with its escapes replaced by what they stand for.
    Text(Chars),
    /// `".."` with variables in it, as `"a{{ n }}c"`: the text before the first one, and each
    /// variable with the text behind it. The escapes of the texts are replaced by what they stand
    /// for.
    Template(Chars, Holes),
    /// `s'..'`, where `\'` is a quote and every other backslash stands for itself.
    RawText(Chars),
    /// `r'..'`, a regular expression: its source, in which `\'` is a quote and every other
    /// backslash stands for itself.
    Regex(Chars),
    /// `t'..'`, a date and time of RFC 3339.
    Timestamp(Moment),
    /// A whole number, with its sign.
    Number(i64),
    /// `true`
    True,
    /// `false`
    False,
    /// `null`
    Null,
    /// `if`
    If,
    /// `else`
    Else,
    /// `abort`
    Abort,
    /// `return`
    Return,
    /// A name that is no keyword, with no path, parenthesis or bang behind it.
    Name(Chars),
    /// The name of a function directly before `(`: `f` of `f(`.
    Function(Chars),
    /// The name of a function and a bang directly before `(`: `f!` of `f!(`. The text lacks the
    /// bang.
    BangFunction(Chars),
    /// A path of the event: `.`, `.a`, `.a[0]`. For `.` alone it has no steps.
    EventPath(Path),
    /// A path of the metadata: `%`, `%a`, `%[0]`. For `%` alone it has no steps.
    MetadataPath(Path),
    /// A name that is no keyword, with a path of at least one step directly behind: `a.b`, `a[0]`.
    NamePath(Chars, Path),
    /// A path of at least one step directly behind `)` or `]`: `.a[0]` of `f().a[0]`.
    Suffix(Path),
    /// `=`
    Assign,
    /// `|=`
    MergeAssign,
    /// `??`
    Coalesce,
    /// `||`
    Or,
    /// `&&`
    And,
    /// `==`
    Equal,
    /// `!=`
    Unequal,
    /// `<`
    Less,
    /// `<=`
    AtMost,
    /// `>`
    More,
    /// `>=`
    AtLeast,
    /// `|` as the operator that merges objects.
    Merge,
    /// `+`
    Plus,
    /// `-` as the operator; the minus of a number is part of the number.
    Minus,
    /// `*`
    Times,
    /// `!` that is no part of a function's name.
    Not,
    /// `(`
    OpenParenthesis,
    /// `)`
    CloseParenthesis,
    /// `[`
    OpenBracket,
    /// `]`
    CloseBracket,
    /// `{` that opens a block.
    OpenBlock,
    /// `{` that opens an object.
    OpenObject,
    /// `}`, whatever it closes.
    CloseBrace,
    /// `|` behind `->`, which opens the names of a closure.
    OpenBars,
    /// `|` that closes the names of a closure.
    CloseBars,
    /// `,`
    Comma,
    /// `:`
    Colon,
    /// `->`
    Arrow,
    /// What parts items: `;`, or a newline that parts. Newlines that don't are no tokens.
    Separator,
}

// Written out, so that a token is let go by one call.
impl Drop for Token {
    fn drop(self) {
        match self {
            Token::Text(_text) | Token::RawText(_text) | Token::Regex(_text) => {}
            Token::Template(_first, _holes) => {}
            Token::Timestamp(_) | Token::Number(_) => {}
            Token::True | Token::False | Token::Null => {}
            Token::If | Token::Else | Token::Abort | Token::Return => {}
            Token::Name(_name) | Token::Function(_name) | Token::BangFunction(_name) => {}
            Token::EventPath(_path) | Token::MetadataPath(_path) | Token::Suffix(_path) => {}
            Token::NamePath(_name, _path) => {}
            Token::Assign | Token::MergeAssign | Token::Coalesce | Token::Or | Token::And => {}
            Token::Equal | Token::Unequal | Token::Less | Token::AtMost => {}
            Token::More | Token::AtLeast | Token::Merge => {}
            Token::Plus | Token::Minus | Token::Times | Token::Not => {}
            Token::OpenParenthesis | Token::CloseParenthesis => {}
            Token::OpenBracket | Token::CloseBracket => {}
            Token::OpenBlock | Token::OpenObject | Token::CloseBrace => {}
            Token::OpenBars | Token::CloseBars => {}
            Token::Comma | Token::Colon | Token::Arrow | Token::Separator => {}
        }
    }
}

/// A token and where it stands.
#[derive(Drop)]
pub struct Spanned {
    /// The token.
    pub token: Token,
    /// The bytes of its spelling.
    pub span: Span,
}

/// Tokens in the order in which they stand, and where their text ends. A contract sees their list
/// and that place.
#[derive(Drop)]
pub struct Tokens {
    tokens: Vec<Spanned>,
    end: u32,
}

impl Model for Tokens {
    ghost use Rattle.vrl_token.specs.TokenList.{TokenList};

    ghost Value = { TokenList };

    ghost view = { λ t. record { tokens = t.tokens.items; «end» = t.«end» } };
}

impl Tokens {
    /// These tokens, which it keeps, of a text with so many bytes.
    pub fn new(tokens: Vec<Spanned>, end: u32) -> Tokens
        ensures { result ≡ record { tokens = tokens.items; «end» = end } }
    {
        Tokens { tokens, end }
    }

    /// The tokens, borrowed.
    pub fn as_slice(&self) -> &[Spanned]
        ensures { result.now ≡ self.now.tokens }
    {
        &self.tokens
    }

    /// The tokens, given back. It takes no memory.
    pub fn into_vec(self) -> Vec<Spanned>
        ensures { result.items ≡ self.tokens }
    {
        self.tokens
    }

    /// Where their text ends: how many bytes it has.
    pub fn end(&self) -> u32
        ensures { result ≡ self.now.«end» }
    {
        self.end
    }
}
