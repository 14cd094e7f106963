//! What words say of components.
ghost use Rattle.state_words.specs.Laws.{ProcsAreTold, ModulesAreTold, LowsAreTold, CombsAreTold, ProcsAreWords, ModulesAreWords, LowsAreWords, CombsAreWords};

/// A component is the one that its head and the words after it are, a module with the memory beside them.
pub fn components_are_told()
    ensures procs { ProcsAreTold }
    ensures modules { ModulesAreTold }
    ensures lows { LowsAreTold }
    ensures combs { CombsAreTold }
{}

/// A head says of which kind its component is, and how many words there are; each word is below 2^64.
pub fn words_are_words()
    ensures procs { ProcsAreWords }
    ensures modules { ModulesAreWords }
    ensures lows { LowsAreWords }
    ensures combs { CombsAreWords }
{}
