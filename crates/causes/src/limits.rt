// The limits of document 01, as specs/Limits.antt has them.

pub const PHRASES: usize = 256;

pub const GUIDE_BYTES: usize = 16384;

pub const LISTING_BYTES: usize = 327680;

pub const OWN_PHRASES: usize = 32;

pub const LEVELS: usize = 16;

pub const INSTRUCTIONS: usize = 512;

pub const PLATE_BYTES: usize = 2953;

// So many wrong answers to a question are taken.
pub const MORE_TRIES: u8 = 2;

// Of the longest transcript.
pub const TRANSCRIPT_BYTES: usize = 918016;

// SKIP is 0 to 511.
pub const SKIPS: usize = 512;
