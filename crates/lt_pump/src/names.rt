//! What is handed over, by the keys and timestamps of the changes.

ghost use Rattle.lt_pump.specs.Names.{NamesFollow};

/// What a stream's records leave in the lists is, by key and timestamp, what the machine delivers, in the same order.
pub fn names_follow()
    ensures { NamesFollow }
{}
