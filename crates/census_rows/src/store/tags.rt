//! The bytes that distinguish kinds of rows. A row with a finding about a pattern has the number of the finding's kind, and the
//! others have 0 and the numbers after those.

use crate::kinds::KINDS;

pub const OPEN: u8 = 0;

pub const BAD: u8 = KINDS + 1;

pub const PART: u8 = KINDS + 2;

pub const ENGINE: u8 = KINDS + 3;

pub const EMITS: u8 = KINDS + 4;

pub const CODE: u8 = KINDS + 5;

pub const CLOSE: u8 = KINDS + 6;

pub const END: u8 = KINDS + 7;
