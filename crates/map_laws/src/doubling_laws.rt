//! What a doubling keeps. Each function says laws and returns at once.

ghost use Rattle.map_laws.specs.CellMaps.{TwiceIsAppliedTwice, DoubledMapsGrow};
ghost use Rattle.map_laws.specs.MapLaws.{DoublingsEnclose, DoublingsStayNarrow, DoublingsKeepTheirBounds};
ghost use Rattle.map_laws.specs.MapLaws.{EndsStaySmall};

/// A doubled map holds the numbers of the exact map applied twice.
pub fn doublings_enclose()
    ensures { DoublingsEnclose }
{}

/// How large and how wide the numbers of a doubled map are: for any bounds, and for those of the map of a cell and its
/// five doublings, of which no end is more than 2 in size.
pub fn doublings_stay_narrow()
    ensures any { DoublingsStayNarrow }
    ensures five { DoublingsKeepTheirBounds }
    ensures ends { EndsStaySmall }
{}

/// A doubled map is the map applied to what it gives, and five doublings grow as the 32nd power of the map.
pub fn doublings_are_repetitions()
    ensures twice { TwiceIsAppliedTwice }
    ensures growth { DoubledMapsGrow }
{}
