//! A site as JSON, for programs and for the page: its points, products, tills and unpaid
//! transactions, and who is connected. The values are views of a book's site, and their texts are
//! compact.
#![tactic(auto)]

mod figures;
mod nozzles;
mod points;
mod sessions;
mod shift_products;
mod tills;
mod transactions;
mod unpaid;
mod whole_site;

pub use figures::{sum_value, text_if, time_if};
pub use points::state_word;
pub use sessions::{PeerSession, is_connected};
pub use shift_products::shift_product_values;
pub use transactions::{cents_of, dues_of, status_word};
pub use unpaid::unpaid_text;
pub use whole_site::{put_member, site_text, site_value};
