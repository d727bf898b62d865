//! Laws of the numbers in bytes, each the contract of a function that does nothing.

ghost use Rattle.mpt_base.specs.NumberLaws.{HasOneSpelling, IsNumberOfItsPart, IsBelowPower};

/// A number has one spelling in bytes of each length.
pub fn number_has_one_spelling()
    ensures { HasOneSpelling }
{}

/// The number at a place is that of the list of the bytes there.
pub fn number_is_that_of_its_part()
    ensures { IsNumberOfItsPart }
{}

/// The number in `n` bytes is below 256 to the `n`.
pub fn number_is_below_power()
    ensures { IsBelowPower }
{}
