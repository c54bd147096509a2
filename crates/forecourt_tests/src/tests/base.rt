//! site_base: devices that fail, words, and allocations that fail.

mod failing_devices;
mod out_of_memory;
mod words;
