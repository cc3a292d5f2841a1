ghost use Rattle.std.specs.Prelude.{◌≡◌};
ghost use Rattle.vrl_resolve.specs.Linked.{form_of, linked_of};

use vrl_path::Path;
use vrl_store::TargetPath;
use vrl_syntax::Op;
use vrl_table::Fun;
use vrl_value::{Chars, Tag, Value};

/// What a call calls.
#[derive(Drop)]
pub(crate) enum Callee {
    /// A function, and for each of its parameters the place of its argument, where it has one.
    Function(Fun, Vec<Option<usize>>),
    /// `del` of what stands at a place.
    Deletion(TargetPath),
    /// `exists` of what stands at a place.
    Existence(TargetPath),
    /// Nothing: no function has the name, or takes these arguments.
    Nothing,
}

/// A function that runs a closure for each part of a collection, with the variables of the
/// closure's names; none of `_`.
#[derive(Clone, Copy)]
pub(crate) enum Loop {
    /// `for_each`, with the variables of the key and of the value.
    ForEach(Option<usize>, Option<usize>),
    /// `filter`, with the same.
    Filter(Option<usize>, Option<usize>),
    /// `map_values`, with the variable of the value.
    MapValues(Option<usize>),
    /// `map_keys`, with that of the key.
    MapKeys(Option<usize>),
}

/// An expression that is ready to be run: variables are numbers, calls are looked up and bound,
/// error assignments have the tags of their empty values, and parentheses are gone.
#[cycle(node)]
pub(crate) struct Node {
    pub(crate) form: Form,
}

impl Node {
    /// The node of a form.
    pub(crate) fn of(form: Form) -> Node
        ensures { linked_of result ≡ form_of form }
    {
        Node { form }
    }
}

// Written out, so that a node is let go by one call.
impl Drop for Node {
    #[cycle(let_go)]
    fn drop(self) {
        let Node { form: _ } = self;
    }
}

/// The forms of a node.
#[cycle(node)]
#[derive(Drop)]
pub(crate) enum Form {
    /// A literal.
    Literal(Value),
    /// An array of these parts.
    Array(Vec<Node>),
    /// An object with these keys and values; of equal keys the last wins.
    Object(Vec<(Chars, Node)>),
    /// What stands at a place.
    Read(TargetPath),
    /// What stands at a path of a value.
    Query(Box<Node>, Path),
    /// Items, whose variables end with them.
    Block(Vec<Node>),
    /// The block of the first true predicate, or the last block.
    If(Vec<Arm>, Option<Vec<Node>>),
    /// `!`.
    Not(Box<Node>),
    /// An operator between two sides.
    Binary(Op, Box<Node>, Box<Node>),
    /// A value is written, where the target takes one.
    Assign(Option<TargetPath>, Box<Node>),
    /// The fields of a value are put over those at a target.
    Merge(Option<TargetPath>, Box<Node>),
    /// An error assignment.
    Both {
        /// Where the value is written.
        ok: Option<TargetPath>,
        /// Where the text of the error is written.
        err: Option<TargetPath>,
        /// The tag of the empty value, which is written in place of a value at an error.
        tag: Tag,
        /// Whose value it is.
        part: Box<Node>,
    },
    /// A call.
    Call(Box<Call>),
    /// A call that runs a closure.
    Iteration(Box<Iteration>),
    /// `return`.
    Return(Box<Node>),
    /// `abort`, with its message where there is one.
    Abort(Option<Box<Node>>),
}

/// A call of a function.
#[cycle(node)]
#[derive(Drop)]
pub(crate) struct Call {
    /// What is called.
    pub(crate) callee: Callee,
    /// It is written with `!`, so an error ends the program.
    pub(crate) bang: bool,
    /// Its arguments, as they are written.
    pub(crate) args: Vec<Node>,
}

/// A call of a function that runs a closure for each part of a collection.
#[cycle(node)]
#[derive(Drop)]
pub(crate) struct Iteration {
    /// The function.
    pub(crate) function: Loop,
    /// It is written with `!`, so an error ends the program.
    pub(crate) bang: bool,
    /// Its arguments, as they are written: the collection.
    pub(crate) args: Vec<Node>,
    /// The items of the closure.
    pub(crate) body: Vec<Node>,
}

/// A predicate of an `if` and the items behind it.
#[cycle(node)]
#[derive(Drop)]
pub(crate) struct Arm {
    /// The predicate.
    pub(crate) predicate: Node,
    /// The items of the block.
    pub(crate) body: Vec<Node>,
}
