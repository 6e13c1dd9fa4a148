//! The law of honest memory.
ghost use Rattle.honest_memory.specs.HonestWords.{HonestMeansAlone, HonestWordsExist};

/// Where each loose word that a run takes is the one that memory has there, the program means what it means with nothing
/// loose, but for the loose words left and taken. There are such words for each input and each bound on loop turns, and
/// any others may come after them. Which classes are loose is open.
pub fn memory_is_honest()
    ensures alone { HonestMeansAlone }
    ensures exist { HonestWordsExist }
{}
