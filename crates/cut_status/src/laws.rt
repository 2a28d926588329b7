//! What is true of the definitions of a status. Each function does nothing that is seen, and its contract is the law.

ghost use Rattle.cut_status.specs.Laws.{FaultsAreOfOthers, StatusesAreOne};

/// Bytes are a study of one plan at most. So they have one status at most, and if they have one no fault says anything
/// of them but that memory ran out.
pub fn bytes_have_one_status()
    ensures status { StatusesAreOne }
    ensures fault { FaultsAreOfOthers }
{
    cut_plan::laws::canonical_text_reads_back();
}
