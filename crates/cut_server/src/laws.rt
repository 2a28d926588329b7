//! A law of what a server leaves. Its function does nothing that is seen, and its contract is the law.

ghost use Rattle.cut_server.specs.Histories.{CountsHaveHistories};

/// Of each count that is no more than the trials of some accepted plan there is a legal history, which accepted that
/// many: so what `EndsServing` says of a server's line, by counts, implies what a report says of it by histories.
pub fn counts_have_histories()
    ensures { CountsHaveHistories }
{}
