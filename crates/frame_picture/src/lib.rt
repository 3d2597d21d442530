//! A picture of the frames of a history in SVG: a row for each MAP, and in it a bar for each allocation.
//!
//! Each allocation of each MAP that is drawn has one bar, in the row of its MAP, from its offset on and as wide as its
//! length. A bar is the picture's only kind of `rect`. What a bar is for is told by its colour, by its pattern and in
//! its title, and whose it is by its shade. Where the plan meets an opportunity that was reserved it is that, whatever
//! the words of its element. All places are whole.
#![tactic(auto)]

mod along;
mod axis;
mod bar;
mod flows;
mod head;
mod layout;
mod left;
mod meeting;
mod open_idle;
mod opportunities;
mod part;
mod patterns;
mod picture;
mod row;
mod shade;
mod span;
mod text;
mod time;
mod usage;

pub use bar::{Bar, bar_with, every_bar};
pub use flows::{Flows, no_flows, note};
pub use layout::{Scale, slot_units};
pub use meeting::met_by_entries;
pub use open_idle::is_open_idle;
pub use part::Part;
pub use picture::{put_part, put_picture};
pub use shade::{every_shade, shade_of};
pub use span::{Place, Span};
