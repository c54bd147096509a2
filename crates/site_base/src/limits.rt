//! How large a site may be. Types, arrays, invariants and definitions take the sizes from here, so
//! that another site changes them in one place. Every other limit is beside what it limits.

/// Fuelling points of a site, numbered from 1.
pub const POINTS: u8 = 64;

/// Cells of an array that has one for each fuelling point.
pub const POINT_CELLS: usize = POINTS as usize;

/// Nozzles of a fuelling point, numbered from 1.
pub const NOZZLES: u8 = 8;

/// Cells of an array that has one for each nozzle that a site can have.
pub const NOZZLE_CELLS: usize = POINT_CELLS * NOZZLES as usize;

/// Products of a site, numbered from 1.
pub const PRODUCTS: u8 = 8;

/// Cells of an array that has one for each product.
pub const PRODUCT_CELLS: usize = PRODUCTS as usize;

/// Tills of a site, numbered from 1.
pub const TILLS: u8 = 32;

/// Cells of an array that has one for each till.
pub const TILL_CELLS: usize = TILLS as usize;
