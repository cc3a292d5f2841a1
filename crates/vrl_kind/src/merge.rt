ghost use Rattle.std.specs.Prelude.{MatchOption, option_map, ◌≡◌, None, Some};
ghost use Rattle.vrl_kind.specs.Merge.{IsTurn, IsEnd};
ghost use Rattle.vrl_kind.specs.View.{fields_view};

use crate::kind::{Kind, KindField};
use std::cmp::Ordering;

/// Two lists of fields, each in the order of the names' bytes, that are taken together name by
/// name.
#[derive(Drop)]
pub(crate) struct Merge<'a> {
    pub(crate) left: &'a [KindField],
    pub(crate) right: &'a [KindField],
}

/// A name, and the kinds that the two lists have at it: at least one has one.
#[derive(Clone, Copy)]
pub(crate) struct Pair<'a> {
    pub(crate) name: &'a str,
    pub(crate) left: Option<&'a Kind>,
    pub(crate) right: Option<&'a Kind>,
}

impl<'a> Pair<'a> {
    fn of_left(field: &'a KindField) -> Pair<'a>
        ensures name { result.name.now ≡ field.now.name }
        ensures left { option_map (λ k. k.now) result.left ≡ Some field.now.kind }
        ensures right { option_map (λ k. k.now) result.right ≡ None }
    {
        Pair {
            name: field.name.as_str(),
            left: Some(&field.kind),
            right: None,
        }
    }

    fn of_right(field: &'a KindField) -> Pair<'a>
        ensures name { result.name.now ≡ field.now.name }
        ensures left { option_map (λ k. k.now) result.left ≡ None }
        ensures right { option_map (λ k. k.now) result.right ≡ Some field.now.kind }
    {
        Pair {
            name: field.name.as_str(),
            left: None,
            right: Some(&field.kind),
        }
    }
}

impl<'a> Merge<'a> {
    // The next name of either list, with what each has there.
    pub(crate) fn next(&mut self) -> Option<Pair<'a>>
        ensures { MatchOption result (IsEnd (fields_view self.old.left.now) (fields_view self.old.right.now))
            (λ pair. IsTurn pair.name.now (option_map (λ k. k.now) pair.left) (option_map (λ k. k.now) pair.right)
            (fields_view self.old.left.now) (fields_view self.old.right.now)
            (fields_view self.new.left.now) (fields_view self.new.right.now)) }
    {
        match (self.left.split_first(), self.right.split_first()) {
            (None, None) => None,
            (Some((first, rest)), None) => {
                self.left = rest;
                Some(Pair::of_left(first))
            }
            (None, Some((first, rest))) => {
                self.right = rest;
                Some(Pair::of_right(first))
            }
            (Some((first, rest)), Some((second, others))) => {
                match first.name.as_str().cmp(second.name.as_str()) {
                    Ordering::Less => {
                        self.left = rest;
                        Some(Pair::of_left(first))
                    }
                    Ordering::Equal => {
                        self.left = rest;
                        self.right = others;
                        Some(Pair {
                            name: first.name.as_str(),
                            left: Some(&first.kind),
                            right: Some(&second.kind),
                        })
                    }
                    Ordering::Greater => {
                        self.right = others;
                        Some(Pair::of_right(second))
                    }
                }
            }
        }
    }
}
