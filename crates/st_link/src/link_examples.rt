//! Worked examples: texts that are linked.

ghost use Rattle.layout.specs.PartExamples.{text_of_parts};
ghost use Rattle.st_link.specs.RunExamples.{calls_and_globals};
ghost use Rattle.st_link.specs.LinkedSources.{HasLink};

/// A text of functions, blocks in a block and externals, and one of elements and fields, an enumerated type, a timer
/// and an input of the plant: all premises of the law hold.
pub fn linked_texts()
    ensures calls { HasLink calls_and_globals }
    ensures parts { HasLink text_of_parts }
{}
