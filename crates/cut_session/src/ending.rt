ghost use Rattle.cut_session.specs.Laws.{SessionsSeeNoLess, SessionsReportFailures};

/// However a session ends, of no study less has been seen then than when it began.
pub fn sessions_see_no_less()
    ensures { SessionsSeeNoLess }
{}

/// A session that reports a failed write had one, one that reports a failed read had that, and no other call of its
/// wire failed, but for a read that a failed write kept it from reporting.
pub fn sessions_report_failures()
    ensures { SessionsReportFailures }
{}
