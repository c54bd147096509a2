//! The one-thread site. It judges each event of a till or a dispenser by the site's rules, and
//! answers exactly what the written step answers (crate `written_site`). A refusal leaves it as it
//! was.
#![tactic(auto)]

mod accounts;
mod answers;
mod check;
mod check_commands;
mod check_payments;
mod check_reports;
mod check_site;
mod checks;
mod endings;
mod figures;
mod perform;
mod points;
mod ranges;
mod ready;
mod recount;
mod releases;
mod runs;
mod site;
mod site_parts;
mod tills;
mod totals;

pub use runs::{RunStopped, run};
pub use site::Site;
