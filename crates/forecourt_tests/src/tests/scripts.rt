//! demo: allocations that fail.

mod out_of_memory;
