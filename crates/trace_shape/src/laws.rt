//! Laws of moments that conform.
ghost use Rattle.trace_shape.specs.Laws.{NoneConformsToTooBig, LeastIsThere, LeastIsOne, ShapedStays};

/// Where a row declares more than a bucket holds, no moments conform.
pub fn none_conforms_to_too_big()
    ensures { NoneConformsToTooBig }
{}

/// Where no row declares more than a bucket holds, there are least moments.
pub fn least_is_there()
    ensures { LeastIsThere }
{}

/// There are no two lists of least moments.
pub fn least_is_one()
    ensures { LeastIsOne }
{}

/// A shaped trace stays as it is where it is shaped again with the same numbers.
pub fn shaped_stays()
    ensures { ShapedStays }
{}
