//! Laws of the faults and of counts. Each function does nothing, and its contract is the law.

ghost use Rattle.cut_faults.specs.Laws.{NumbersName, NumbersDiffer, OneMoreHasRisen};

/// A number names one fault: the numbers of faults differ.
pub fn numbers_differ()
    ensures names { NumbersName }
    ensures differ { NumbersDiffer }
{}

/// A count with one more failure in it has risen.
pub fn counts_rise()
    ensures { OneMoreHasRisen }
{}
