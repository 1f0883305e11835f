//! Laws of numbered names.
ghost use Rattle.law_book.specs.Names.{FindsEachName};

/// Looking a number's name up gives the number.
pub fn finds_each_name()
    ensures { FindsEachName }
{}
