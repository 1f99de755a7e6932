// Why a write or a resize of a sound blob is refused, in document 01's order: 12 first, then 10 or 11.
pub mod resize;
pub mod write;
