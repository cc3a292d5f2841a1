//! What a function of the language is: its parameters, the kind of its result, when it may fail,
//! and what it answers.
//!
//! A function is a type that implements [`Builtin`]. A contract sees it as its `Row`, and the law
//! of [`Builtin`] ties what a row says of kinds to what it says of values, so that neither the
//! judgement nor the runner needs to know a function.
//!
//! Files: `builtin.rt` has the trait and `law.rt` its law, `one_tag.rt` the trait of functions
//! whose results have one tag, and `of_text.rt` that of those that give a text for each text.
//! `parameter.rt`, `tags.rt`, `given.rt`, `arguments.rt`, `setting.rt` and `failing.rt` have what
//! the methods take and give, and `failure.rt` the error of a function. Of kinds, `of_parts.rt` has
//! those of arrays and objects whose parts are of one kind, and of either of two tags,
//! `any_parts.rt` those of any parts, `cutting.rt` what is left of one at some tags,
//! `part_kinds.rt` the parts of a kind's arrays and objects, and `part_tags.rt` whether such a part
//! may have another tag. `items.rt` has the items of an array, `literal.rt` the names that a
//! literal may be one of, and `numeral.rt` the numbers that functions read in texts. Of the
//! definitions `Rows` says what a row is, `Conditions` what is asked of a call, and `Law` the law;
//! `Listed` has the parts of a value as lists. What the laws of functions rest on stands in
//! `proofs/`: `Lawful`, `Containers`, `AnswerParts` and `AnyParts` are on answers, `GivenTags`,
//! `PartKinds` and `OtherParts` on what is given.
#![tactic(auto)]

mod any_parts;
mod arguments;
mod builtin;
mod cutting;
mod failing;
mod failure;
mod given;
mod items;
mod law;
mod literal;
mod numeral;
mod of_parts;
mod of_text;
mod one_tag;
mod parameter;
mod part_kinds;
mod part_tags;
mod setting;
mod tags;

pub use any_parts::any_of;
pub use arguments::Arguments;
pub use builtin::Builtin;
pub use cutting::cut_down;
pub use failing::{
    Applied, fail, fail_at_bad_element, fail_at_element, fail_at_path_element, fail_at_value,
    first_other,
};
pub use failure::{Failure, Reason};
pub use given::{Given, Givens};
pub use items::items_of;
pub use law::keeps_law;
pub use literal::is_one_of;
pub use numeral::read_integer;
pub use of_parts::{array_of, array_of_tag, either_tag, object_of, object_of_tag};
pub use of_text::{FromText, OfText};
pub use one_tag::OneTag;
pub use parameter::Parameter;
pub use part_kinds::array_parts;
pub use setting::Setting;
pub use tags::Tags;
