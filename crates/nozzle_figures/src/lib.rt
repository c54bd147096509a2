//! What was counted at each nozzle: its readings, what flowed, what was sold and drawn, and by how
//! much a replaced meter jumped.
#![tactic(auto)]

mod laws;

pub use laws::{each_nozzle_adds_up, each_product_adds_up, each_reading_is_counted};
