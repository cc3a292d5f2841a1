ghost use Rattle.std.specs.Prelude.{false, is_some, not, ◌&&◌, ◌||◌, ◌≡◌, IfOk};
ghost use Rattle.vrl_judge.specs.Judging.{table_rule};
ghost use Rattle.vrl_judge.specs.Partners.{only_where};
ghost use Rattle.vrl_judge.specs.Rules.{is_compared as is_compared_part, is_comparison as compares, is_tag, number_tag as tag_of_numbers, order_tag as tag_of_order, scalars_at, some_pair, some_tag, sum_tag as tag_of_sum, table_tags};
ghost use Rattle.vrl_kind.specs.Kinds.{tags_at};
ghost use Rattle.vrl_kind.specs.Sets.{SameSets};
ghost use Rattle.vrl_kind.specs.Tags.{same_tag};
ghost use Rattle.vrl_state.specs.States.{IsCutOf};
ghost use Rattle.vrl_syntax.specs.View.{expr_of};
ghost use Rattle.vrl_value.specs.declared.value.Tag.TheVariants as tags;

use crate::kinds::cut;
use crate::shared_kind::SharedKind;
use std::alloc::Global;
use vrl_kind::{Kind, TAGS, has, join, kind_is_canonical};
use vrl_syntax::{Expr, Form, Op};
use vrl_value::{Memory, Tag};

/// An operator that takes some pairs of tags.
#[derive(Clone, Copy)]
pub enum Table {
    /// A sum, of two whole numbers, of two texts, or of a text and null.
    Sum,
    /// A difference or a product, of two whole numbers.
    Number,
    /// A comparison, of two whole numbers, two texts or two moments.
    Order,
}

impl Table {
    // The tag of what it gives for a pair of tags. None: it takes no such pair.
    fn tag(self, left: Tag, right: Tag) -> Option<Tag>
        ensures { result ≡ table_rule self left right }
    {
        match self {
            Table::Sum => sum_tag(left, right),
            Table::Number => number_tag(left, right),
            Table::Order => order_tag(left, right),
        }
    }

    // Whether it gives this tag for a pair of tags.
    fn gives_for(self, left: Tag, right: Tag, tag: Tag) -> bool
        ensures { result ≡ is_tag (table_rule self left right) tag }
    {
        match self.tag(left, right) {
            Some(given) => given == tag,
            None => false,
        }
    }

    // Whether some pair that the kinds allow gives this tag.
    fn gives(self, left: &Kind, right: &Kind, tag: Tag) -> bool
        ensures { result ≡ table_tags (table_rule self) left.now right.now tag }
    {
        TAGS.iter()
            .any(|a| has(left, *a) && self.gives_beside(*a, right, tag))
    }

    // The same with one tag on the left.
    #[tactic(auto, unfolding(crate::specs::Rules::some_tag))]
    fn gives_beside(self, left: Tag, right: &Kind, tag: Tag) -> bool
        ensures { result ≡ some_tag (λ b. is_tag (table_rule self left b) tag) right.now }
    {
        TAGS.iter()
            .any(|b| has(right, *b) && self.gives_for(left, *b, tag))
    }

    // Whether the kinds allow some pair that it takes.
    pub(crate) fn may_take(self, left: &Kind, right: &Kind) -> bool
        ensures { result ≡ some_pair (λ a b. is_some (table_rule self a b)) left.now right.now }
    {
        TAGS.iter()
            .any(|a| has(left, *a) && self.may_take_beside(*a, right))
    }

    #[tactic(auto, unfolding(crate::specs::Rules::some_tag))]
    fn may_take_beside(self, left: Tag, right: &Kind) -> bool
        ensures { result ≡ some_tag (λ b. is_some (table_rule self left b)) right.now }
    {
        TAGS.iter()
            .any(|b| has(right, *b) && self.tag(left, *b).is_some())
    }

    // Whether the kinds allow some pair that it doesn't take.
    pub(crate) fn may_refuse(self, left: &Kind, right: &Kind) -> bool
        ensures { result ≡ some_pair (λ a b. not (is_some (table_rule self a b))) left.now right.now }
    {
        TAGS.iter()
            .any(|a| has(left, *a) && self.may_refuse_beside(*a, right))
    }

    #[tactic(auto, unfolding(crate::specs::Rules::some_tag))]
    fn may_refuse_beside(self, left: Tag, right: &Kind) -> bool
        ensures { result ≡ some_tag (λ b. not (is_some (table_rule self left b))) right.now }
    {
        TAGS.iter()
            .any(|b| has(right, *b) && self.tag(left, *b).is_none())
    }

    // The kind of what it gives for the pairs that the kinds allow, cut. `Memory`: want of memory.
    pub(crate) fn kind(self, alloc: Global, left: &Kind, right: &Kind) -> Result<SharedKind, Memory>
        ensures { IfOk result (λ kind. IsCutOf (scalars_at (table_tags (table_rule self) left.now right.now)) kind) }
    {
        let text = kind_where(alloc, self.gives(left, right, Tag::Text), Tag::Text);
        let integer = kind_where(alloc, self.gives(left, right, Tag::Int), Tag::Int);
        let boolean = kind_where(alloc, self.gives(left, right, Tag::Bool), Tag::Bool);
        let first = join(alloc, &text, &integer)?;
        let kind = join(alloc, &first, &boolean)?;
        kind_is_canonical(&kind);
        cut(alloc, kind)
    }
}

// The kind of a scalar's tag, or of no value.
pub(crate) fn kind_where(alloc: Global, given: bool, tag: Tag) -> Kind
    requires { (same_tag tag tags.List || same_tag tag tags.Object) ≡ false }
    ensures { SameSets (tags_at result) (scalars_at (only_where given tag)) }
{
    if given {
        Kind::of(alloc, tag)
    } else {
        Kind::never()
    }
}

// A null beside a text counts as empty.
fn sum_tag(left: Tag, right: Tag) -> Option<Tag>
    ensures { result ≡ tag_of_sum left right }
{
    match left {
        Tag::Int => match right {
            Tag::Int => Some(Tag::Int),
            _ => None,
        },
        Tag::Text => match right {
            Tag::Text | Tag::Null => Some(Tag::Text),
            _ => None,
        },
        Tag::Null => match right {
            Tag::Text => Some(Tag::Text),
            _ => None,
        },
        _ => None,
    }
}

fn number_tag(left: Tag, right: Tag) -> Option<Tag>
    ensures { result ≡ tag_of_numbers left right }
{
    match left {
        Tag::Int => match right {
            Tag::Int => Some(Tag::Int),
            _ => None,
        },
        _ => None,
    }
}

fn order_tag(left: Tag, right: Tag) -> Option<Tag>
    ensures { result ≡ tag_of_order left right }
{
    match left {
        Tag::Int => match right {
            Tag::Int => Some(Tag::Bool),
            _ => None,
        },
        Tag::Text => match right {
            Tag::Text => Some(Tag::Bool),
            _ => None,
        },
        Tag::Time => match right {
            Tag::Time => Some(Tag::Bool),
            _ => None,
        },
        _ => None,
    }
}

// Whether an operator compares.
fn is_comparison(op: Op) -> bool
    ensures { result ≡ compares op }
{
    matches!(
        op,
        Op::Equal | Op::Unequal | Op::Less | Op::AtMost | Op::More | Op::AtLeast
    )
}

// Whether an expression is a comparison that isn't in parentheses.
fn is_compared(expr: &Expr) -> bool
    ensures { result ≡ is_compared_part (expr_of expr.now) }
{
    match &expr.form {
        Form::Binary(op, _, _) => is_comparison(*op),
        _ => false,
    }
}

/// Whether an operator compares a comparison.
pub fn is_chained(op: Op, left: &Expr, right: &Expr) -> bool
    ensures { result ≡ (compares op && (is_compared_part (expr_of left.now) || is_compared_part (expr_of right.now))) }
{
    is_comparison(op) && (is_compared(left) || is_compared(right))
}
