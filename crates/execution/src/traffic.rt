//! Laws of what goes in and comes out.
ghost use Rattle.execution.specs.Traffic.{EachExtends, ExtendsJoins};

/// Each way in and out adds bytes and writes at the end, takes input and loose words from the front, and lowers no count.
pub fn each_extends<Place>()
    ensures each { EachExtends Place }
{}

/// What extends something that extends the first extends the first.
pub fn extends_joins<Place>()
    ensures joined { ExtendsJoins Place }
{}
