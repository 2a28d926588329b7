//! Plans and the lines of their tables: some worked out by hand, the others computed apart from this program by a
//! script written from the definitions; and gates that watch the workers of a study.
#![tactic(auto)]

mod gates;

pub use gates::{Calls, MeetingGate, NotingGate, SlowGate};

/// A plan, and the lines of its table below the header.
#[derive(Clone, Copy)]
pub struct Study {
    /// The plan's text.
    pub plan: &'static str,
    /// The lines, each with its line feed.
    pub lines: &'static str,
}

/// One cell of two trials: in each one process crashes, and the four others propose it.
pub const TWO_TRIALS: Study = Study {
    plan: r#"{"copies":1,"dead":"silent","f":[1],"faults":"crash","h":[1],"implicit":true,"k":[1],"l":[1],"liars":0,"links":0,"nodes":5,"repeats":2,"seed":"0000000000000000000000000000000000000000000000000000000000000000","version":1}"#,
    lines: "1,1,1,1,2,8,0,0,0,8,2,2,0\n",
};

/// The same with three trials.
pub const THREE_TRIALS: Study = Study {
    plan: r#"{"copies":1,"dead":"silent","f":[1],"faults":"crash","h":[1],"implicit":true,"k":[1],"l":[1],"liars":0,"links":0,"nodes":5,"repeats":3,"seed":"0000000000000000000000000000000000000000000000000000000000000000","version":1}"#,
    lines: "1,1,1,1,3,12,0,0,0,12,3,3,0\n",
};

/// With 130 trials, so that it has more slips than a word has bits. Its table has 108 bytes.
pub const MANY_TRIALS: Study = Study {
    plan: r#"{"copies":1,"dead":"silent","f":[1],"faults":"crash","h":[1],"implicit":true,"k":[1],"l":[1],"liars":0,"links":0,"nodes":5,"repeats":130,"seed":"0000000000000000000000000000000000000000000000000000000000000000","version":1}"#,
    lines: "1,1,1,1,130,520,0,0,0,520,130,130,0\n",
};

/// With 1000 trials.
pub const THOUSAND_TRIALS: Study = Study {
    plan: r#"{"copies":1,"dead":"silent","f":[1],"faults":"crash","h":[1],"implicit":true,"k":[1],"l":[1],"liars":0,"links":0,"nodes":5,"repeats":1000,"seed":"0000000000000000000000000000000000000000000000000000000000000000","version":1}"#,
    lines: "1,1,1,1,1000,4000,0,0,0,4000,1000,1000,0\n",
};

/// One trial with a liar in place of the failed process, which the five receivers believe.
pub const ONE_LIAR: Study = Study {
    plan: r#"{"copies":1,"dead":"silent","f":[0],"faults":"crash","h":[1],"implicit":true,"k":[1],"l":[1],"liars":1,"links":0,"nodes":5,"repeats":1,"seed":"0000000000000000000000000000000000000000000000000000000000000000","version":1}"#,
    lines: "1,1,1,0,1,5,0,0,5,5,1,0,0\n",
};

/// Two cells of one trial each: in the first no process fails, so that nobody is reported and the five receivers are
/// silent, and in the second one crashes.
pub const TWO_CELLS: Study = Study {
    plan: r#"{"copies":1,"dead":"silent","f":[0,1],"faults":"crash","h":[1],"implicit":true,"k":[1],"l":[1],"liars":0,"links":0,"nodes":5,"repeats":1,"seed":"0000000000000000000000000000000000000000000000000000000000000000","version":1}"#,
    lines: "1,1,1,0,1,5,0,5,0,0,0,0,0\n1,1,1,1,1,4,0,0,0,4,1,1,0\n",
};

/// Studies of one cell, and studies of many.
pub fn studies() -> &'static [Study] {
    STUDIES
}

const STUDIES: &[Study] = &[
    Study {
        plan: r#"{"copies": 1, "dead": "silent", "implicit": true, "nodes": 3, "repeats": 4, "seed": "44eeF9F200BCDF40C1dF6F88adDa528B700dE247Fe9ccdB15ad34fa530AFFEB1", "version": 1, "faults": "crash", "k": [1, 2], "h": [2], "l": [2], "f": [0, 1, 2], "liars": 0, "links": 1}"#,
        lines: "2,2,2,0,4,12,0,12,0,0,0,0,0\n2,2,2,1,4,8,0,0,0,8,0,0,0\n2,2,2,2,4,4,0,4,0,0,0,0,0\n",
    },
    Study {
        plan: r#"{"copies": 1, "dead": "speak", "implicit": false, "nodes": 14, "repeats": 1, "seed": "AaeceFadE74AA1B3a2c54bbedCDfD9Ad9e98287Af6aC3dfb0840caf68B7Da622", "version": 1, "faults": "crash", "k": [2, 3, 4], "h": [2, 3], "l": [3, 4], "f": [6, 7, 11], "liars": 1, "links": 0}"#,
        lines: "3,3,3,6,1,8,8,0,0,3,0,0,1000000\n3,3,3,7,1,7,7,0,0,3,0,0,1000000\n3,3,3,11,1,3,3,0,0,1,0,0,1000000\n4,3,3,6,1,8,8,0,0,6,0,0,1000000\n4,3,3,7,1,7,7,0,0,3,0,0,1000000\n4,3,3,11,1,3,3,0,0,1,0,0,1000000\n",
    },
    Study {
        plan: r#"{"copies": 4, "dead": "speak", "implicit": true, "nodes": 13, "repeats": 1, "seed": "60d9363BEEB02553067b3ee28675687dEAC01DBdF25f3715B3F640fC2aFabEEb", "version": 1, "faults": "crash", "k": [1, 6], "h": [1, 2, 5], "l": [1], "f": [5], "liars": 1, "links": 1}"#,
        lines: "1,1,1,5,1,8,8,0,2,4,0,0,1000000\n6,1,1,5,1,8,8,0,1,2,0,0,1000000\n6,2,1,5,1,8,7,0,6,1,0,0,875000\n6,5,1,5,1,8,0,7,0,1,0,0,0\n",
    },
    Study {
        plan: r#"{"copies": 2, "dead": "silent", "implicit": true, "nodes": 14, "repeats": 2, "seed": "51C69ED85f1fc18eBc2fC4aca5081bb9ff2543af4bC4f3Bef6c60c4b525c157d", "version": 1, "faults": "deaf", "k": [1, 2, 3], "h": [1, 2], "l": [1, 2, 3], "f": [8], "liars": 0, "links": 2}"#,
        lines: "1,1,1,8,2,12,12,0,5,5,0,0,1000000\n2,1,1,8,2,12,12,0,5,4,0,0,1000000\n2,2,1,8,2,12,4,5,7,4,0,0,333333\n2,2,2,8,2,12,12,0,2,6,0,0,1000000\n3,1,1,8,2,12,12,0,2,4,0,0,1000000\n3,2,1,8,2,12,12,0,12,2,0,0,1000000\n3,2,2,8,2,12,12,0,4,4,0,0,1000000\n",
    },
    Study {
        plan: r#"{"copies": 1, "dead": "silent", "f": [14], "faults": "crash", "h": [2], "implicit": true, "k": [4], "l": [2], "liars": 0, "links": 0, "nodes": 16, "repeats": 5, "seed": "a64d65c3b51db66ac2451da90f51e951dc02621e69027a395d281814140ea4bd", "version": 1}"#,
        lines: "4,2,2,14,5,10,6,4,0,5,0,0,600000\n",
    },
    Study {
        plan: r#"{"copies": 3, "dead": "speak", "implicit": true, "nodes": 12, "repeats": 3, "seed": "D66C9b9Cf7eBd604BBC3F8EBBDfaf5F8b4D8cc15baDAbE8fCC8b94D8583e98dB", "version": 1, "faults": "crash", "k": [2], "h": [1, 2], "l": [1, 2, 3], "f": [8, 9], "liars": 1, "links": 0}"#,
        lines: "2,1,1,8,3,12,12,0,0,6,0,0,1000000\n2,1,1,9,3,9,9,0,0,4,0,0,1000000\n2,2,1,8,3,12,2,0,2,10,0,0,166666\n2,2,1,9,3,9,3,0,0,6,0,0,333333\n2,2,2,8,3,12,12,0,0,7,0,0,1000000\n2,2,2,9,3,9,9,0,0,3,0,0,1000000\n",
    },
    Study {
        plan: r#"{"copies": 2, "dead": "silent", "implicit": false, "nodes": 4, "repeats": 1, "seed": "Dd8B6bb3d9eD6E111f8F81F65468Ef00AfAf7fc8be3aF3cBCc5Fe18996c5fcaE", "version": 1, "faults": "deaf", "k": [4], "h": [2, 3, 4], "l": [1, 2, 4], "f": [0, 1, 3], "liars": 0, "links": 0}"#,
        lines: "4,2,1,0,1,4,0,4,0,0,0,0,0\n4,2,1,1,1,3,1,0,3,1,0,0,333333\n4,2,1,3,1,1,1,0,1,1,0,0,1000000\n4,2,2,0,1,4,0,4,0,0,0,0,0\n4,2,2,1,1,3,0,0,0,3,0,0,0\n4,2,2,3,1,1,1,0,1,1,0,0,1000000\n4,3,1,0,1,4,0,4,0,0,0,0,0\n4,3,1,1,1,3,0,3,0,0,0,0,0\n4,3,1,3,1,1,0,0,1,1,0,0,0\n4,3,2,0,1,4,0,4,0,0,0,0,0\n4,3,2,1,1,3,0,2,0,1,0,0,0\n4,3,2,3,1,1,0,0,1,1,0,0,0\n4,4,1,0,1,4,0,4,0,0,0,0,0\n4,4,1,1,1,3,0,3,0,0,0,0,0\n4,4,1,3,1,1,0,0,1,1,0,0,0\n4,4,2,0,1,4,0,4,0,0,0,0,0\n4,4,2,1,1,3,0,3,0,0,0,0,0\n4,4,2,3,1,1,0,0,1,1,0,0,0\n4,4,4,0,1,4,0,4,0,0,0,0,0\n4,4,4,1,1,3,0,0,0,3,0,0,0\n4,4,4,3,1,1,1,0,1,1,0,0,1000000\n",
    },
];
