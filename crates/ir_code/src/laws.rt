//! Laws of the meaning of flat code.
ghost use Rattle.ir_code.specs.FlatLaws.{StepsOnlyAdd, WeightsAreCounted};

/// Whatever flat code does, bytes and writes are added at the end, input and loose words are taken from the front, and
/// neither its weight nor its count of jumps falls.
pub fn steps_only_add()
    ensures adds { StepsOnlyAdd }
    ensures weights { WeightsAreCounted }
{}
