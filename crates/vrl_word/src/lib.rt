//! What the single tokens of a script say, and expressions made of their parts: what a parser of the Vector
//! Remap Language stands on.
//!
//! Files: `word.rt` and `sign.rt` say what a token is, `forms.rt` makes expressions of their parts, and
//! `template.rt` makes that of a text with variables.
#![tactic(auto)]

pub mod forms;
mod sign;
mod template;
mod word;

pub use sign::{Sign, is_sign};
pub use template::template_of;
pub use word::{
    function_of, is_path, literal_of, name_span, operator_of, over, path_of, target_of,
};
