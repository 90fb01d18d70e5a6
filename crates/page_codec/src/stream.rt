ghost use Rattle.page_codec.specs.Laws.{PackingGoesOn, PagesAreAStream, TheNextIsTaken, AllIsGiven};

/// What was packed is read back. Nothing is done here: the contract is the law, for those who speak
/// of lists of pages. Whatever items a packer was given, its pages and the last one are a stream of
/// these items, and an unpacker takes each page of a stream in turn and gives its items.
pub fn streams_read_back()
    ensures packing { PackingGoesOn }
    ensures stream { PagesAreAStream }
    ensures next { TheNextIsTaken }
    ensures all { AllIsGiven }
{}
