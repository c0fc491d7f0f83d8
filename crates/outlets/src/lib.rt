// The outlets that come with Soccerpine.
#![tactic(auto)]

pub mod image;
mod looks;
mod room;
pub mod table;

pub use image::{ImageOutlet, image_fits};
pub use table::{Record, Span, TableOutlet, table_fits};
