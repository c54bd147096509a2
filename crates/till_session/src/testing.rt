//! Devices for tests of sessions: they work in memory, and fail where a test wants it.

mod connections;
mod faulty;

pub use connections::Connections;
pub use faulty::Faulty;
