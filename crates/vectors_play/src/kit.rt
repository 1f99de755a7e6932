// What is used of the kit's `io`, for a file that names std's.
pub use io::{large_buffer, read_full};
