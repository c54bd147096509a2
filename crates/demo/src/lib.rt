//! Demos: scripts, and the simulated dispensers that carry them out.
//!
//! A script is a text that sets a site up, and then has sections, each the work of one till or of
//! one simulated dispenser. `read_script` accepts exactly the texts that `specs/Script.antt` calls
//! scripts, unless memory runs out. For any other text it returns the number of the first faulty
//! line.
//!
//! A `Dispenser` is the pump head of one fuelling point. It keeps a reading for each nozzle, and
//! carries out the steps of a script at a counter desk, as a dispenser on a forecourt would. A
//! preset limits its flow, and a refused report doesn't move its readings. The share through which
//! it works comes back on every path, with a receipt for each report.
#![tactic(auto)]

mod dispenser;
mod draft;
mod end;
mod fault;
mod flow;
mod limits;
mod line;
mod message;
mod script;
mod section;
mod steps;
mod words;

pub use dispenser::Dispenser;
pub use end::{DispenserEnd, DispenserFault};
pub use fault::ScriptFault;
pub use limits::{GREATEST_POLLS, GREATEST_PUMPED, SECTIONS};
pub use line::Line;
pub use script::{DemoScript, read_script};
pub use section::Section;
pub use steps::{Script, Step};
