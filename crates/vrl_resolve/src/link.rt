ghost use Rattle.std.specs.Prelude.{◌≡◌, [], ◌∷◌, map, option_map, IfOk, OnOk, ⊤};
ghost use Rattle.vrl_syntax.specs.ErrorAssignments.{first_tag, in_args, in_arms, in_closure, in_else, in_expr, in_exprs, other_tags};
ghost use Rattle.vrl_syntax.specs.Stores.{metadata_name};
ghost use Rattle.vrl_syntax.specs.Tree.{abort_with, array, assign, binary, block, both, conditional, literal, merge, negation, object, query, read, return_of};
ghost use Rattle.vrl_syntax.specs.View.{arg_of, args_of, arms_of, call_of, closure_in, closure_of, else_of, expr_of, exprs_of, message_of, pairs_of};
ghost use Rattle.vrl_syntax.specs.declared.root.Root.TheVariants.{Name};
ghost use Rattle.vrl_value.specs.View.{tree_of};
ghost use Rattle.vrl_store.specs.StoreView.{AreDistinct, Names as VariableNames};
ghost use Rattle.vrl_store.specs.declared.target_path.Base.TheVariants as base;
ghost use Rattle.vrl_resolve.specs.Linked.{arms_view, linked_of, parts_view, else_of as linked_else};
ghost use Rattle.vrl_resolve.specs.Linking.{names_in, AreArgsLinked, AreArmsLinked, AreLinked, IsBaseOf, IsBeginning, IsBodyLinked, IsElseLinked, IsLinked, IsLoopIn, IsTargetPathOf, IsTargetOf, Links, LinksForm, Numbers};

use crate::node::{Arm, Call, Form, Iteration, Loop, Node};
use indexmap::IndexSet;
use std::alloc::Global;
use vrl_path::Path;
use vrl_store::{Base, EmptyTags, TargetPath};
use vrl_syntax::{
    Arg, Args, Arm as SyntaxArm, Arms, Call as SyntaxCall, Closure, Expr, Exprs,
    Form as SyntaxForm, METADATA, Op, Pairs, Root, Target,
};
use vrl_value::{Chars, Memory, Names, Tag, Value};

/// What makes nodes of expressions: the names of variables, each with a number, and the tags of the
/// error assignments that are to come.
#[derive(Drop)]
pub(crate) struct Linker<'a> {
    pub(crate) alloc: Global,
    names: IndexSet<String>,
    tags: EmptyTags<'a>,
}

impl<'a> Linker<'a> {
    /// One that knows the name of the metadata alone. `Memory`: out of memory.
    pub(crate) fn new(alloc: Global, tags: &'a [Tag]) -> Result<Linker<'a>, Memory>
        ensures names { IfOk result (λ linker. names_in linker ≡ metadata_name ∷ []) }
        ensures tags { IfOk result (λ linker. linker.tags.left.now ≡ tags.now) }
    {
        let mut names = IndexSet::new(alloc);
        names.insert_full(String::from_str(alloc, METADATA)?)?;
        Ok(Linker {
            alloc,
            names,
            tags: EmptyTags { left: tags },
        })
    }
}

// The value of an argument, which is let go but for that.
fn value_of(arg: Arg) -> Expr
    ensures { expr_of result ≡ (arg_of arg).2 }
{
    let Arg {
        name: _,
        span: _,
        value,
    } = arg;
    value
}

impl Linker<'_> {
    /// The names of the variables, in the order of their numbers. `Memory`: want of memory.
    pub(crate) fn into_names(self) -> Result<Names, Memory>
        ensures names { IfOk result (λ names. names ≡ names_in self.entry) }
        ensures distinct { OnOk result (AreDistinct (names_in self.entry)) }
    {
        let Linker {
            alloc,
            names,
            tags: _,
        } = self;
        let mut texts = Vec::with_capacity(alloc, names.len())?;
        for name in names {
            texts.push(Chars::new(name))?;
        }
        Ok(Names::new(texts))
    }

    // The number of the variable of a name. `Memory`: want of memory.
    pub(crate) fn number(&mut self, name: &str) -> Result<usize, Memory>
        ensures { IfOk result
            (λ number. Numbers self.old self.new (λ names. IsBaseOf names (Name name.now) (base.Variable number))) }
    {
        if let Some(number) = self.names.get_index_of(name) {
            return Ok(number);
        }
        let (number, _is_new) = self.names.insert_full(String::from_str(self.alloc, name)?)?;
        Ok(number)
    }

    // The base of a root. `Memory`: want of memory.
    fn base(&mut self, root: &Root) -> Result<Base, Memory>
        ensures { IfOk result (λ base. Numbers self.old self.new (λ names. IsBaseOf names root.now base)) }
    {
        match root {
            Root::Event => Ok(Base::Event),
            Root::Name(name) => Ok(Base::Variable(self.number(name.as_str())?)),
        }
    }

    // A path from a root. `Memory`: want of memory.
    pub(crate) fn target_path(&mut self, root: &Root, path: Path) -> Result<TargetPath, Memory>
        ensures { IfOk result
            (λ target. Numbers self.old self.new (λ names. IsTargetPathOf names root.now path target)) }
    {
        let base = self.base(root)?;
        Ok(TargetPath { base, path })
    }

    // Where a target writes. `Memory`: want of memory.
    fn target(&mut self, target: Target) -> Result<Option<TargetPath>, Memory>
        ensures { IfOk result (λ place. Numbers self.old self.new (λ names. IsTargetOf names target place)) }
    {
        match target.into_place() {
            Some((root, path)) => Ok(Some(self.target_path(&root, path)?)),
            None => Ok(None),
        }
    }

    // The tag of the next error assignment; null where none is left.
    fn tag(&mut self) -> Tag
        ensures first { result ≡ first_tag self.old.tags.left.now }
        ensures others { self.new.tags.left.now ≡ other_tags self.old.tags.left.now }
        ensures names { self.new.names ≡ self.old.names }
    {
        self.tags.next()
    }

    /// The nodes of items, or of the parts of an array. `Memory`: want of memory.
    #[cycle(link)]
    pub(crate) fn items(&mut self, items: Exprs) -> Result<Vec<Node>, Memory>
        ensures { IfOk result (λ nodes. Links self.old self.new (in_exprs (exprs_of items))
            (λ names tags. AreLinked names tags (exprs_of items) (parts_view nodes.items))) }
    {
        let items = items.into_vec();
        let mut nodes = Vec::with_capacity(self.alloc, items.len())?;
        for item in items {
            let node = self.node(item)?;
            nodes.push(node)?;
        }
        Ok(nodes)
    }

    // The node of an expression. `Memory`: want of memory.
    #[cycle(link)]
    fn node(&mut self, expr: Expr) -> Result<Node, Memory>
        ensures { IfOk result (λ node. Links self.old self.new (in_expr (expr_of expr))
            (λ names tags. IsLinked names tags (expr_of expr) (linked_of node))) }
    {
        match expr.into_form() {
            SyntaxForm::Literal(value) => Ok(self.literal(value)),
            SyntaxForm::Array(parts) => self.array(parts),
            SyntaxForm::Map(pairs) => self.object(pairs),
            SyntaxForm::Read(root, path) => self.read(root, path),
            SyntaxForm::Query(part, path) => self.query(part, path),
            SyntaxForm::Group(part) => self.node(Box::into_inner(part)),
            SyntaxForm::Block(items) => self.block(items),
            SyntaxForm::If(arms, otherwise) => self.conditional(arms, otherwise),
            SyntaxForm::Not(part) => self.negation(part),
            SyntaxForm::Binary(op, left, right) => self.binary(op, left, right),
            SyntaxForm::Assign(target, part) => self.assign(target, part),
            SyntaxForm::Merge(target, part) => self.merge(target, part),
            SyntaxForm::Both(ok, err, part) => self.both(ok, err, part),
            SyntaxForm::Call(call) => self.call(Box::into_inner(call)),
            SyntaxForm::Return(part) => self.give_back(part),
            SyntaxForm::Abort(message) => self.abort(message),
        }
    }

    // The node of a part, in a box. `Memory`: want of memory.
    #[cycle(link)]
    fn boxed(&mut self, part: Box<Expr>) -> Result<Box<Node>, Memory>
        ensures { IfOk result (λ node. Links self.old self.new (in_expr (expr_of part.value))
            (λ names tags. IsLinked names tags (expr_of part.value) (linked_of node.value))) }
    {
        let node = self.node(Box::into_inner(part))?;
        Ok(Box::new(self.alloc, node)?)
    }

    // A literal, which is in order: its depth says so.
    fn literal(&self, value: Value) -> Node
        ensures { LinksForm self.now self.now (literal (tree_of value)) (linked_of result) }
    {
        let _depth = value.depth();
        Node::of(Form::Literal(value))
    }

    fn read(&mut self, root: Root, path: Path) -> Result<Node, Memory>
        ensures { IfOk result (λ node. LinksForm self.old self.new (read root path) (linked_of node)) }
    {
        let target = self.target_path(&root, path)?;
        Ok(Node::of(Form::Read(target)))
    }

    #[cycle(link)]
    fn array(&mut self, parts: Exprs) -> Result<Node, Memory>
        ensures { IfOk result (λ node. LinksForm self.old self.new (array (exprs_of parts)) (linked_of node)) }
    {
        let nodes = self.items(parts)?;
        Ok(Node::of(Form::Array(nodes)))
    }

    #[cycle(link)]
    fn object(&mut self, pairs: Pairs) -> Result<Node, Memory>
        ensures { IfOk result (λ node. LinksForm self.old self.new (object (pairs_of pairs)) (linked_of node)) }
    {
        let pairs = pairs.into_vec();
        let mut nodes = Vec::with_capacity(self.alloc, pairs.len())?;
        for (name, part) in pairs {
            let node = self.node(part)?;
            nodes.push((name, node))?;
        }
        Ok(Node::of(Form::Object(nodes)))
    }

    #[cycle(link)]
    fn query(&mut self, part: Box<Expr>, path: Path) -> Result<Node, Memory>
        ensures { IfOk result (λ node. LinksForm self.old self.new (query (expr_of part.value) path) (linked_of node)) }
    {
        let part = self.boxed(part)?;
        Ok(Node::of(Form::Query(part, path)))
    }

    #[cycle(link)]
    fn block(&mut self, items: Exprs) -> Result<Node, Memory>
        ensures { IfOk result (λ node. LinksForm self.old self.new (block (exprs_of items)) (linked_of node)) }
    {
        let nodes = self.items(items)?;
        Ok(Node::of(Form::Block(nodes)))
    }

    #[cycle(link)]
    fn conditional(&mut self, arms: Arms, otherwise: Option<Exprs>) -> Result<Node, Memory>
        ensures { IfOk result (λ node. LinksForm self.old self.new
            (conditional (arms_of arms) (else_of (option_map exprs_of otherwise))) (linked_of node)) }
    {
        let arms = self.arms(arms)?;
        let otherwise = self.otherwise(otherwise)?;
        Ok(Node::of(Form::If(arms, otherwise)))
    }

    #[cycle(link)]
    fn arms(&mut self, arms: Arms) -> Result<Vec<Arm>, Memory>
        ensures { IfOk result (λ linked. Links self.old self.new (in_arms (arms_of arms))
            (λ names tags. AreArmsLinked names tags (arms_of arms) (arms_view linked.items))) }
    {
        let arms = arms.into_vec();
        let mut linked = Vec::with_capacity(self.alloc, arms.len())?;
        for arm in arms {
            let SyntaxArm { predicate, body } = arm;
            let predicate = self.node(predicate)?;
            let body = self.items(body)?;
            linked.push(Arm { predicate, body })?;
        }
        Ok(linked)
    }

    // The items behind a last `else`.
    #[cycle(link)]
    fn otherwise(&mut self, otherwise: Option<Exprs>) -> Result<Option<Vec<Node>>, Memory>
        ensures { IfOk result (λ linked. Links self.old self.new (in_else (else_of (option_map exprs_of otherwise)))
            (λ names tags. IsElseLinked names tags (else_of (option_map exprs_of otherwise))
            (linked_else (option_map (λ nodes. map linked_of nodes.items) linked)))) }
    {
        match otherwise {
            Some(items) => {
                let nodes = self.items(items)?;
                Ok(Some(nodes))
            }
            None => Ok(None),
        }
    }

    #[cycle(link)]
    fn negation(&mut self, part: Box<Expr>) -> Result<Node, Memory>
        ensures { IfOk result (λ node. LinksForm self.old self.new (negation (expr_of part.value)) (linked_of node)) }
    {
        let part = self.boxed(part)?;
        Ok(Node::of(Form::Not(part)))
    }

    #[cycle(link)]
    fn binary(&mut self, op: Op, left: Box<Expr>, right: Box<Expr>) -> Result<Node, Memory>
        ensures { IfOk result (λ node. LinksForm self.old self.new
            (binary op (expr_of left.value) (expr_of right.value)) (linked_of node)) }
    {
        let left = self.boxed(left)?;
        let right = self.boxed(right)?;
        Ok(Node::of(Form::Binary(op, left, right)))
    }

    #[cycle(link)]
    fn assign(&mut self, target: Target, part: Box<Expr>) -> Result<Node, Memory>
        ensures { IfOk result (λ node. LinksForm self.old self.new
            (assign target (expr_of part.value)) (linked_of node)) }
    {
        let part = self.boxed(part)?;
        let target = self.target(target)?;
        Ok(Node::of(Form::Assign(target, part)))
    }

    #[cycle(link)]
    fn merge(&mut self, target: Target, part: Box<Expr>) -> Result<Node, Memory>
        ensures { IfOk result (λ node. LinksForm self.old self.new
            (merge target (expr_of part.value)) (linked_of node)) }
    {
        let part = self.boxed(part)?;
        let target = self.target(target)?;
        Ok(Node::of(Form::Merge(target, part)))
    }

    #[cycle(link)]
    fn both(&mut self, ok: Target, err: Target, part: Box<Expr>) -> Result<Node, Memory>
        ensures { IfOk result (λ node. LinksForm self.old self.new
            (both ok err (expr_of part.value)) (linked_of node)) }
    {
        let tag = self.tag();
        let part = self.boxed(part)?;
        let ok = self.target(ok)?;
        let err = self.target(err)?;
        Ok(Node::of(Form::Both { ok, err, tag, part }))
    }

    #[cycle(link)]
    fn give_back(&mut self, part: Box<Expr>) -> Result<Node, Memory>
        ensures { IfOk result (λ node. LinksForm self.old self.new (return_of (expr_of part.value)) (linked_of node)) }
    {
        let part = self.boxed(part)?;
        Ok(Node::of(Form::Return(part)))
    }

    #[cycle(link)]
    fn abort(&mut self, message: Option<Box<Expr>>) -> Result<Node, Memory>
        ensures { IfOk result (λ node. LinksForm self.old self.new
            (abort_with (message_of (option_map (λ part. expr_of part.value) message))) (linked_of node)) }
    {
        match message {
            Some(part) => {
                let part = self.boxed(part)?;
                Ok(Node::of(Form::Abort(Some(part))))
            }
            None => Ok(Node::of(Form::Abort(None))),
        }
    }

    #[cycle(link)]
    fn call(&mut self, call: SyntaxCall) -> Result<Node, Memory>
        ensures { IfOk result (λ node. LinksForm self.old self.new (call_of call) (linked_of node)) }
    {
        let function = self.function(&call)?;
        match function {
            Some(function) => self.iteration(call, function),
            None => self.plain_call(call),
        }
    }

    // A call that runs a closure by this function.
    #[cycle(link)]
    fn iteration(&mut self, call: SyntaxCall, function: Loop) -> Result<Node, Memory>
        requires { (names : VariableNames) → IsBeginning (names_in self.old) names
            → IsLoopIn names (call_of call) (Some function) }
        ensures { IfOk result (λ node. LinksForm self.old self.new (call_of call) (linked_of node)) }
    {
        let SyntaxCall {
            name: _,
            name_span: _,
            bang,
            args,
            closure,
        } = call;
        let args = self.args(args)?;
        let body = self.body(closure)?;
        let linked = Iteration {
            function,
            bang,
            args,
            body,
        };
        Ok(Node::of(Form::Iteration(Box::new(self.alloc, linked)?)))
    }

    // The items of a closure.
    #[cycle(link)]
    fn body(&mut self, closure: Option<Closure>) -> Result<Vec<Node>, Memory>
        ensures { IfOk result
            (λ nodes. Links self.old self.new (in_closure (closure_in (option_map closure_of closure)))
            (λ names tags. IsBodyLinked names tags (closure_in (option_map closure_of closure))
            (parts_view nodes.items))) }
    {
        match closure {
            Some(closure) => {
                let Closure {
                    names: _,
                    body,
                    span: _,
                } = closure;
                self.items(body)
            }
            None => Ok(Vec::new(self.alloc)),
        }
    }

    // A call that runs no closure.
    #[cycle(link)]
    fn plain_call(&mut self, call: SyntaxCall) -> Result<Node, Memory>
        requires { (names : VariableNames) → IsBeginning (names_in self.old) names
            → IsLoopIn names (call_of call) None }
        ensures { IfOk result (λ node. LinksForm self.old self.new (call_of call) (linked_of node)) }
    {
        let callee = self.callee(&call)?;
        let SyntaxCall {
            name: _,
            name_span: _,
            bang,
            args,
            closure,
        } = call;
        let args = self.args(args)?;
        self.pass_over(&closure);
        let linked = Call { callee, bang, args };
        Ok(Node::of(Form::Call(Box::new(self.alloc, linked)?)))
    }

    // Passes over the tags of the error assignments in a closure that nothing runs.
    fn pass_over(&mut self, closure: &Option<Closure>)
        ensures { Links self.old self.new (in_closure (closure_in (option_map closure_of closure.now)))
            (λ names tags. ⊤) }
    {
        self.tags.pass_over(closure);
    }

    #[cycle(link)]
    fn args(&mut self, args: Args) -> Result<Vec<Node>, Memory>
        ensures { IfOk result (λ nodes. Links self.old self.new (in_args (args_of args))
            (λ names tags. AreArgsLinked names tags (args_of args) (parts_view nodes.items))) }
    {
        let args = args.into_vec();
        let mut nodes = Vec::with_capacity(self.alloc, args.len())?;
        for arg in args {
            let node = self.node(value_of(arg))?;
            nodes.push(node)?;
        }
        Ok(nodes)
    }
}
