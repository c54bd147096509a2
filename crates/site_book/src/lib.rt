//! The book of a site: its history, row by row, with the site that the rows lead to. An auditor
//! replays it and counts every figure anew; the counter desk holds it under its lock. A list of
//! rows keeps each row in 64 octets. The unpaid transactions are kept up to date as the book grows.
#![tactic(auto)]

mod audit;
mod book;
mod changes;
mod draw;
mod draws;
mod figures;
mod kept;
mod kept_row;
mod named_sale;
mod rows;
mod sales;
mod site_reads;
mod tills;
mod unpaid_sales;

pub use audit::audit_rows;
pub use book::SiteBook;
pub use changes::is_changing;
pub use draw::Draw;
pub use draws::Draws;
pub use kept::{is_kept, is_read};
pub use named_sale::NamedSale;
pub use rows::Rows;
pub use sales::Sales;
pub use unpaid_sales::UnpaidSales;
