//! What no clause says.

mod calls;
mod crew_day;
mod crews;
mod day;
mod dispensers;
mod full_desk;
mod full_list;
mod held_call;
mod missing_worker;
mod no_lists;
mod out_of_memory;
mod share_out;
mod snapshot;
