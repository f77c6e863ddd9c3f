//! What it means that a condition is reported as unmet, and which variables are unused in small productions. Each law
//! is the contract of a function that does nothing.
ghost use Rattle.program_slips.specs.Unmet.{NoElementMeets};
ghost use Rattle.program_slips.specs.SmallTexts.{LoneAreFound};

/// No element meets a condition that has two tests which exclude each other.
pub fn no_element_meets()
    ensures { NoElementMeets }
{}

/// The unused variables of small productions, as computed from the definitions.
pub fn small_texts()
    ensures { LoneAreFound }
{}
