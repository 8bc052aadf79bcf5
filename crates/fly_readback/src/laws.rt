ghost use Rattle.fly_readback.specs.ReadBack.{LiteralsAreReadBack, LiteralMapsAreReadBack};

/// The text of a sound literal is read as that literal, where it is within the limits of documents. The call does
/// nothing: its contract is the law.
pub fn literals_are_read_back()
    ensures { LiteralsAreReadBack }
{}

/// The same of the text of literals by name.
pub fn literal_maps_are_read_back()
    ensures { LiteralMapsAreReadBack }
{}
