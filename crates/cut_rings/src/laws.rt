//! Laws of observers, and of the numbers of edges. Each function does nothing, and its contract is the law.

ghost use Rattle.cut_rings.specs.Laws.{ObserversAreProcesses, EdgeNumbersAreFew, EdgeNumbersNameEdges};

/// On every ring the observer of a process is one of the processes, and observes it.
pub fn observers_are_processes()
    ensures { ObserversAreProcesses }
{}

/// The edges of k rings and n processes have different numbers below n * k.
pub fn edge_numbers_name_edges()
    ensures few { EdgeNumbersAreFew }
    ensures names { EdgeNumbersNameEdges }
{}
