//! Laws of conditions and effects. A call does nothing: its contract is the law.
ghost use Rattle.ps_eval.specs.Laws.{FlatReadsWhatIsNamed, TruthReadsWhatIsNamed};

/// Conditions hold by what they read alone: where two know the same of all that conditions name, which are the facts, the values
/// of function terms and the types of instances, either all of the conditions hold in both or not all of them in either.
pub fn truth_reads_what_is_named()
    ensures { TruthReadsWhatIsNamed }
{}

/// Where two know the same of all that a list of effects reads, which are the right sides, the conditions of `when` and, where it binds
/// variables, the instances, the list stands for the same effects in both.
pub fn flat_reads_what_is_named()
    ensures { FlatReadsWhatIsNamed }
{}
