//! The law of ways.

ghost use Rattle.jv_classes.specs.Ways.{ShortWays};

/// What is reached at all is reached by way of fewer numbers than there are.
pub fn short_ways()
    ensures { ShortWays }
{}
