//! The report of a site's figures: as text, with a line for each figure; for people, in columns of
//! litres and money; and as JSON. Each form is made from the same `Totals`, and its contract says
//! octet by octet what it is.
#![tactic(auto)]

mod column;
mod columns;
mod json;
mod people;
mod products;
mod takings;
mod text;

pub use json::report_as_json;
pub use people::report_for_people;
pub use products::product_values;
pub use text::report_as_text;
