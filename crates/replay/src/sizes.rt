// The sizes of what is read and told of an operation, in one place.

// The most bytes of a gulp.
pub(crate) const RUN: usize = 2000;

// The places that a drain or a gulp is lent at most: a gulp records each of its bytes twice at most.
// An array, as the box has it: what is lent to it is never grown.
pub(crate) const LENT: usize = 4096;

// The longest outcome: a gulp's name, what it took and four digits for each of its bytes.
pub(crate) const LONGEST: usize = 4 * RUN + 32;

// The largest SIZE of a drain and ROOM of a gulp, and its digits.
pub(crate) const SIZE: u32 = 65536;

pub(crate) const SIZE_DIGITS: usize = 5;

// The digits of the largest number of ticks.
pub(crate) const TICKS_DIGITS: usize = 10;
