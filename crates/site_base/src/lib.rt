//! What every crate of the site controller uses: numbers with their ranges, events, answers,
//! refusals, and the site's configuration.
#![tactic(auto)]

mod actor;
mod amounts;
mod answer;
mod config;
mod event;
mod limits;
mod listing;
mod memory;
mod number_meaning;
mod numbers;
mod point_set;
mod prices;
mod product_name;
mod refusal;
mod row;
mod sale;
mod signing;
mod state;
mod table;
mod totals;
mod view;
mod words;

pub use actor::Actor;
pub use amounts::{
    Cents, GREATEST_CENTS, GREATEST_PRICE, GREATEST_READING, GROWTH_LIMIT, Millilitres, Mills,
    amount_of, greatest_ml,
};
pub use answer::Answer;
pub use config::{GREATEST_ROWS, NozzleEntry, PointEntry, ProductEntry, SiteConfig};
pub use event::Event;
pub use limits::{
    NOZZLE_CELLS, NOZZLES, POINT_CELLS, POINTS, PRODUCT_CELLS, PRODUCTS, TILL_CELLS, TILLS,
};
pub use listing::Listing;
pub use memory::NoMemory;
pub use number_meaning::NumberMeaning;
pub use numbers::{
    FpNo, GREATEST_SEQ, GREATEST_SHIFT, NozzleNo, Number, ProductNo, Seq, ShiftNo, TillNo,
};
pub use point_set::PointSet;
pub use prices::PriceBook;
pub use product_name::{NAME_OCTETS, ProductName};
pub use refusal::{NoRow, Refusal};
pub use row::{Placed, Reply, Row, cents_in_reply, growth_in_reply};
pub use sale::SaleId;
pub use signing::{SignChange, sign_change};
pub use state::{GREATEST_PRESET, PointState, Preset, Status};
pub use table::place_of;
pub use totals::Totals;
pub use view::{PointView, ProductView, SiteView, TransactionView};
pub use words::write_reply;
