//! A law of the definitions, the contract of a function that does nothing.
ghost use Rattle.dw_parts.specs.Parts.{PartsAreTheWhole};

/// An item is in a list exactly if it is in one of its parts.
pub fn parts_are_the_whole<T>()
    ensures { PartsAreTheWhole T }
{}
