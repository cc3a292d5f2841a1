//! The functions that read, make and change arrays.
//!
//! Files: each function has a file, and its row one of `specs/`; its law stands in the file of
//! `specs/` with its name and `Law`. `copies.rt` has copies of the items of an array, `places.rt`
//! the kinds of arrays with more places, `same.rt` whether values are equal, `order.rt` an order of
//! all values, and `key.rt` what a set finds by it. Of the definitions `Sure` says what a kind
//! knows of places, and `Same` when two values are equal; `Widened`, `Pieces`, `Order` and `Seen`
//! say what the code promises on its way. What the laws rest on stands in `Placing`, and that the
//! order is a total one in `Ordered`.
#![tactic(auto)]

mod append;
mod chunks;
mod compact;
mod copies;
mod flatten;
mod includes;
mod key;
mod order;
mod places;
mod push;
mod same;
mod unique;
mod zip;

pub use append::Append;
pub use chunks::Chunks;
pub use compact::Compact;
pub use flatten::Flatten;
pub use includes::Includes;
pub use push::Push;
pub use unique::Unique;
pub use zip::Zip;
