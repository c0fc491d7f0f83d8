// A text in memory that was got before it is written.
#![tactic(auto)]

mod page;

pub use self::page::Page;
