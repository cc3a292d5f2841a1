ghost use Rattle.std.specs.Prelude.{◌≡◌, drop, option_map};
ghost use Rattle.vrl_syntax.specs.ErrorAssignments.{first_tag, in_args, in_arms, in_closure, in_expr, in_exprs, in_form, in_pairs, other_tags};
ghost use Rattle.vrl_syntax.specs.View.{args_of, arms_of, call_of, closure_in, closure_of, expr_of, exprs_of, pairs_of};

use vrl_syntax::{Args, Arms, Call, Closure, Expr, Exprs, Form, Pairs};
use vrl_value::Tag;

/// The tags of the empty values of the error assignments that are to come, in the order in which a
/// walk of the script meets them.
#[derive(Drop)]
pub struct EmptyTags<'a> {
    /// Those that are left.
    pub left: &'a [Tag],
}

impl EmptyTags<'_> {
    /// The tag of the next error assignment, which takes it; null where none is left.
    pub fn next(&mut self) -> Tag
        ensures first { result ≡ first_tag self.old.left.now }
        ensures others { self.new.left.now ≡ other_tags self.old.left.now }
    {
        match self.left.split_first() {
            Some((tag, others)) => {
                self.left = others;
                *tag
            }
            None => Tag::Null,
        }
    }

    /// Passes over those of the error assignments in a closure.
    pub fn pass_over(&mut self, closure: &Option<Closure>)
        ensures { self.new.left.now ≡ drop
            (in_closure (closure_in (option_map closure_of closure.now))) self.old.left.now }
    {
        match closure {
            Some(closure) => self.pass_exprs(&closure.body),
            None => {}
        }
    }

    // Passes over those in an expression.
    #[cycle(pass)]
    fn pass_expr(&mut self, expr: &Expr)
        ensures { self.new.left.now ≡ drop (in_expr (expr_of expr.now)) self.old.left.now }
    {
        match &expr.form {
            Form::Literal(_) | Form::Read(..) | Form::Abort(None) => {}
            Form::Array(exprs) | Form::Block(exprs) => self.pass_exprs(exprs),
            Form::Map(pairs) => self.pass_pairs(pairs),
            Form::Query(part, _)
            | Form::Group(part)
            | Form::Not(part)
            | Form::Assign(_, part)
            | Form::Merge(_, part)
            | Form::Return(part)
            | Form::Abort(Some(part)) => self.pass_expr(part),
            Form::If(arms, otherwise) => {
                self.pass_arms(arms);
                if let Some(exprs) = otherwise {
                    self.pass_exprs(exprs);
                }
            }
            Form::Binary(_, left, right) => {
                self.pass_expr(left);
                self.pass_expr(right);
            }
            Form::Both(_, _, part) => {
                self.next();
                self.pass_expr(part);
            }
            Form::Call(call) => self.pass_call(call),
        }
    }

    // Passes over those in a call.
    #[cycle(pass)]
    fn pass_call(&mut self, call: &Call)
        ensures { self.new.left.now ≡ drop (in_form (call_of call.now)) self.old.left.now }
    {
        self.pass_args(&call.args);
        if let Some(closure) = &call.closure {
            self.pass_exprs(&closure.body);
        }
    }

    // Passes over those in expressions.
    #[cycle(pass)]
    fn pass_exprs(&mut self, exprs: &Exprs)
        ensures { self.new.left.now ≡ drop (in_exprs (exprs_of exprs.now)) self.old.left.now }
    {
        for expr in exprs.as_slice() {
            self.pass_expr(expr);
        }
    }

    // Passes over those in the values of an object.
    #[cycle(pass)]
    fn pass_pairs(&mut self, pairs: &Pairs)
        ensures { self.new.left.now ≡ drop (in_pairs (pairs_of pairs.now)) self.old.left.now }
    {
        for (_, value) in pairs.as_slice() {
            self.pass_expr(value);
        }
    }

    // Passes over those in predicates and their blocks.
    #[cycle(pass)]
    fn pass_arms(&mut self, arms: &Arms)
        ensures { self.new.left.now ≡ drop (in_arms (arms_of arms.now)) self.old.left.now }
    {
        for arm in arms.as_slice() {
            self.pass_expr(&arm.predicate);
            self.pass_exprs(&arm.body);
        }
    }

    // Passes over those in the arguments of a call.
    #[cycle(pass)]
    fn pass_args(&mut self, args: &Args)
        ensures { self.new.left.now ≡ drop (in_args (args_of args.now)) self.old.left.now }
    {
        for arg in args.as_slice() {
            self.pass_expr(&arg.value);
        }
    }
}
