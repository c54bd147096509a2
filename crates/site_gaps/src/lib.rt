//! A station as JSON: its site, as in `site_json`, and what its rows tell: the open gaps, the jumps
//! of replaced meters, since when points call, and when sales were sold. It is a crate of its own
//! because feeds use `site_json` and none of this.
#![tactic(auto)]

mod gaps;
mod jumps;
mod moments;
mod station_json;

pub use gaps::gaps_value;
pub use station_json::station_text;
