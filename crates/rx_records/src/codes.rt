//! The numbers of the types of nodes.

/// Of a term and an item of a class, which have no record.
pub const NO_NODE: u8 = 0;

pub const PATTERN: u8 = 1;

pub const DISJUNCTION: u8 = 2;

pub const ALTERNATIVE: u8 = 3;

pub const LOOK_AROUND_ASSERTION: u8 = 4;

pub const QUANTIFIER: u8 = 5;

pub const CAPTURING_GROUP: u8 = 6;

pub const IGNORE_GROUP: u8 = 7;

pub const BOUNDARY_ASSERTION: u8 = 8;

pub const CHARACTER: u8 = 9;

pub const DOT: u8 = 10;

pub const CHARACTER_CLASS_ESCAPE: u8 = 11;

pub const UNICODE_PROPERTY_ESCAPE: u8 = 12;

pub const CHARACTER_CLASS: u8 = 13;

pub const CHARACTER_CLASS_RANGE: u8 = 14;

pub const CLASS_STRING_DISJUNCTION: u8 = 15;

pub const CLASS_STRING: u8 = 16;

pub const INDEXED_REFERENCE: u8 = 17;

pub const NAMED_REFERENCE: u8 = 18;
