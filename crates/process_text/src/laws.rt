// What is proved of the grammar.
ghost use Rattle.process_text.specs.Again.{ReadingsAreAlike, ReadingOrFault};

use std::alloc::Global;

/// Words are of one list of processes at most.
pub fn readings_are_alike()
    ensures { ReadingsAreAlike }
{}

/// A text has a reading or a fault, and not both. The allocator is there since a choice holds its alternatives in a vector.
pub fn each_text_has_a_reading_or_a_fault(_alloc: Global)
    ensures { ReadingOrFault }
{}
