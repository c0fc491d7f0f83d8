// A list kept in number order, over lent rows.
#![tactic(auto)]

pub mod list;
pub mod mapping;
pub mod row;

pub use list::{Full, OrderedList};
pub use row::Row;
