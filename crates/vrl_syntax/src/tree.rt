ghost use Rattle.std.specs.Prelude.{◌≡◌, option_map};
ghost use Rattle.vrl_value.specs.View.{tree_of};
ghost use Rattle.vrl_syntax.specs.Calls.{literal_of, path_of};
ghost use Rattle.vrl_syntax.specs.Tree.{expr};
ghost use Rattle.vrl_syntax.specs.View.{args_of, args_view, arms_of, arms_view, expr_of, exprs_of, exprs_view, form_of, pairs_of, pairs_view};

use crate::root::{Op, Root, Target};
use vrl_diag::Span;
use vrl_path::Path;
use vrl_value::{Chars, Names, Value};

/// An expression. A contract sees `expr_of` it.
#[cycle(syntax)]
pub struct Expr {
    /// From its first character to its last one: a group with its parentheses, a block with its
    /// braces, a call with its closure.
    pub span: Span,
    /// What it is.
    pub form: Form,
}

// Written out, so that an expression is let go by one call.
impl Drop for Expr {
    #[cycle(let_go)]
    fn drop(self) {
        let Expr { span: _, form: _ } = self;
    }
}

impl Expr {
    /// What it is, without its place.
    pub fn into_form(self) -> Form
        ensures { expr_of self ≡ expr self.span (form_of result) }
    {
        let Expr { span: _, form } = self;
        form
    }

    /// The value of a literal that isn't in parentheses. `None`: it is none.
    pub fn as_literal(&self) -> Option<&Value>
        ensures { option_map (λ value. tree_of value.now) result ≡ literal_of (expr_of self.now) }
    {
        match &self.form {
            Form::Literal(value) => Some(value),
            _ => None,
        }
    }

    /// The root and the steps of a path, or of a name alone. `None`: it is none.
    pub fn as_path(&self) -> Option<(&Root, &Path)>
        ensures { option_map (λ path. (path.0.now, path.1.now)) result ≡ path_of (expr_of self.now) }
    {
        match &self.form {
            Form::Read(root, path) => Some((root, path)),
            _ => None,
        }
    }
}

/// The forms of an expression.
#[cycle(syntax)]
#[derive(Drop)]
pub enum Form {
    /// A text, a whole number, a boolean, null, a timestamp or a regex as it is written.
    Literal(Value),
    /// `[a, b]`.
    Array(Exprs),
    /// `{"a": b}`.
    Map(Pairs),
    /// What stands at a path from a root: `.a[0]`, or a name alone.
    Read(Root, Path),
    /// What stands at a path from the value of a call, an array or a group: `f(a)[0]`.
    Query(Box<Expr>, Path),
    /// `(a)`.
    Group(Box<Expr>),
    /// Items between braces.
    Block(Exprs),
    /// `if`, with its predicates and blocks in order and the block behind a last `else`, where
    /// there is one.
    If(Arms, Option<Exprs>),
    /// `!a`.
    Not(Box<Expr>),
    /// An operator between a left and a right side.
    Binary(Op, Box<Expr>, Box<Expr>),
    /// `a = b`.
    Assign(Target, Box<Expr>),
    /// `a |= b`.
    Merge(Target, Box<Expr>),
    /// `a, b = c`: the value goes to the first target and the error's text to the second.
    Both(Target, Target, Box<Expr>),
    /// A call of a function.
    Call(Box<Call>),
    /// `return a`.
    Return(Box<Expr>),
    /// `abort`, with its message where there is one.
    Abort(Option<Box<Expr>>),
}

/// A call of a function.
#[cycle(syntax)]
#[derive(Drop)]
pub struct Call {
    /// The function's name, without the `!`.
    pub name: Chars,
    /// Where the name stands, without the `!`.
    pub name_span: Span,
    /// It is written with `!`, so an error ends the program.
    pub bang: bool,
    /// Its arguments, as they are written.
    pub args: Args,
    /// Its closure, where there is one.
    pub closure: Option<Closure>,
}

/// An argument of a call.
#[cycle(syntax)]
#[derive(Drop)]
pub struct Arg {
    /// The parameter's name, where it is written.
    pub name: Option<Chars>,
    /// From its first character, that of the name where there is one, to its last one.
    pub span: Span,
    /// Its value.
    pub value: Expr,
}

/// The closure of a call: `-> |a, b| { .. }`.
#[cycle(syntax)]
#[derive(Drop)]
pub struct Closure {
    /// The names between the bars, in order.
    pub names: Names,
    /// The items of its block.
    pub body: Exprs,
    /// The span of its block, with the braces.
    pub span: Span,
}

/// A predicate of an `if` and the block behind it.
#[cycle(syntax)]
#[derive(Drop)]
pub struct Arm {
    /// The predicate.
    pub predicate: Expr,
    /// The items of the block.
    pub body: Exprs,
}

/// Expressions in order.
#[cycle(syntax)]
#[derive(Drop)]
pub struct Exprs {
    pub(crate) exprs: Vec<Expr>,
}

impl Exprs {
    /// These expressions, which it keeps.
    pub fn new(exprs: Vec<Expr>) -> Exprs
        ensures { exprs_of result ≡ exprs_view exprs.items }
    {
        Exprs { exprs }
    }

    /// The expressions, borrowed.
    pub fn as_slice(&self) -> &[Expr]
        ensures { exprs_view result.now ≡ exprs_of self.now }
    {
        &self.exprs
    }

    /// The vector that holds the expressions.
    pub fn into_vec(self) -> Vec<Expr>
        ensures { exprs_view result.items ≡ exprs_of self }
    {
        self.exprs
    }
}

/// The keys and values of an object, as they are written.
#[cycle(syntax)]
#[derive(Drop)]
pub struct Pairs {
    pub(crate) pairs: Vec<(Chars, Expr)>,
}

impl Pairs {
    /// These keys and values, which it keeps.
    pub fn new(pairs: Vec<(Chars, Expr)>) -> Pairs
        ensures { pairs_of result ≡ pairs_view pairs.items }
    {
        Pairs { pairs }
    }

    /// The keys and values, borrowed.
    pub fn as_slice(&self) -> &[(Chars, Expr)]
        ensures { pairs_view result.now ≡ pairs_of self.now }
    {
        &self.pairs
    }

    /// The vector that holds the keys and values.
    pub fn into_vec(self) -> Vec<(Chars, Expr)>
        ensures { pairs_view result.items ≡ pairs_of self }
    {
        self.pairs
    }
}

/// The predicates and blocks of an `if`, in order.
#[cycle(syntax)]
#[derive(Drop)]
pub struct Arms {
    pub(crate) arms: Vec<Arm>,
}

impl Arms {
    /// These predicates and blocks, which it keeps.
    pub fn new(arms: Vec<Arm>) -> Arms
        ensures { arms_of result ≡ arms_view arms.items }
    {
        Arms { arms }
    }

    /// The predicates and blocks, borrowed.
    pub fn as_slice(&self) -> &[Arm]
        ensures { arms_view result.now ≡ arms_of self.now }
    {
        &self.arms
    }

    /// The vector that holds the predicates and blocks.
    pub fn into_vec(self) -> Vec<Arm>
        ensures { arms_view result.items ≡ arms_of self }
    {
        self.arms
    }
}

/// The arguments of a call, in order.
#[cycle(syntax)]
#[derive(Drop)]
pub struct Args {
    pub(crate) args: Vec<Arg>,
}

impl Args {
    /// These arguments, which it keeps.
    pub fn new(args: Vec<Arg>) -> Args
        ensures { args_of result ≡ args_view args.items }
    {
        Args { args }
    }

    /// The arguments, borrowed.
    pub fn as_slice(&self) -> &[Arg]
        ensures { args_view result.now ≡ args_of self.now }
    {
        &self.args
    }

    /// The vector that holds the arguments.
    pub fn into_vec(self) -> Vec<Arg>
        ensures { args_view result.items ≡ args_of self }
    {
        self.args
    }
}

/// A script.
#[derive(Drop)]
pub struct Script {
    /// Its items, in order.
    pub items: Exprs,
    /// The sources of its regex literals, in order: the literal with the number n is the one at n.
    pub patterns: Names,
}
