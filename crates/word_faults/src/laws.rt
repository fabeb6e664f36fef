//! Laws over the definitions.
ghost use Rattle.word_faults.specs.NamedWords.{FaultsNameWords};
ghost use Rattle.word_faults.specs.NearWords.{HintsAreNearest};

/// States that a fault line names words that are really there, and a required option only if it is missing.
pub fn faults_name_words()
    ensures { FaultsNameWords }
{}

/// Proves that a word that may be meant is known and near, and that no known word is nearer.
pub fn hints_are_nearest()
    ensures { HintsAreNearest }
{}
