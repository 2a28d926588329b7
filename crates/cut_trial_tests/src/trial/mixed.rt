//! Plans of version 2.

/// Two trials of five processes with one crash, of version 2.
pub(crate) const MIXED: &str =
    r#"{"copies":1,"dead":"silent","deaf":0,"f":[1],"h":[1],"implicit":true,"k":[1],"l":[1],"liars":0,"links":0,"nodes":5,"repeats":2,"seed":"0000000000000000000000000000000000000000000000000000000000000000","version":2}"#;

/// The same on three rings, whose alerts are all needed.
pub(crate) const THREE_RINGS: &str =
    r#"{"copies":1,"dead":"silent","deaf":0,"f":[1],"h":[3],"implicit":true,"k":[3],"l":[1],"liars":0,"links":0,"nodes":5,"repeats":2,"seed":"0000000000000000000000000000000000000000000000000000000000000000","version":2}"#;

/// The same where no process crashes.
pub(crate) const NONE_FAIL: &str =
    r#"{"copies":1,"dead":"silent","deaf":0,"f":[0],"h":[1],"implicit":true,"k":[1],"l":[1],"liars":0,"links":0,"nodes":5,"repeats":2,"seed":"0000000000000000000000000000000000000000000000000000000000000000","version":2}"#;
