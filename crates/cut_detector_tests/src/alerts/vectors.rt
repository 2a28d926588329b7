// Roles and alerted edges that a script apart from this crate computed, from sets and counts.

use crate::alerts::is_drawn;
use std::test::Fail;

// Five processes, with targets that crash.
const FIVE_CRASH: &str =
    r#"{"copies":1,"dead":"speak","f":[1],"faults":"crash","h":[1],"implicit":true,"k":[3],"l":[1],"liars":1,"links":1,"nodes":5,"repeats":1,"seed":"0000000000000000000000000000000000000000000000000000000000000000","version":1}"#;

// Five processes, with deaf targets.
const FIVE_DEAF: &str =
    r#"{"copies":1,"dead":"speak","f":[1],"faults":"deaf","h":[1],"implicit":true,"k":[3],"l":[1],"liars":1,"links":1,"nodes":5,"repeats":1,"seed":"0000000000000000000000000000000000000000000000000000000000000000","version":1}"#;

// Seven processes, with targets that crash.
const SEVEN_CRASH: &str =
    r#"{"copies":1,"dead":"speak","f":[1],"faults":"crash","h":[1],"implicit":true,"k":[4],"l":[1],"liars":1,"links":1,"nodes":7,"repeats":1,"seed":"0123456789abcdef0123456789abcdef0123456789abcdef0123456789abcdef","version":1}"#;

// Seven processes, with deaf targets.
const SEVEN_DEAF: &str =
    r#"{"copies":1,"dead":"speak","f":[1],"faults":"deaf","h":[1],"implicit":true,"k":[4],"l":[1],"liars":1,"links":1,"nodes":7,"repeats":1,"seed":"0123456789abcdef0123456789abcdef0123456789abcdef0123456789abcdef","version":1}"#;

// Two processes, with targets that crash.
const TWO_CRASH: &str =
    r#"{"copies":1,"dead":"speak","f":[1],"faults":"crash","h":[1],"implicit":true,"k":[2],"l":[1],"liars":0,"links":0,"nodes":2,"repeats":1,"seed":"ffffffffffffffffffffffffffffffffffffffffffffffffffffffffffffffff","version":1}"#;

// Two processes, with deaf targets.
const TWO_DEAF: &str =
    r#"{"copies":1,"dead":"speak","f":[1],"faults":"deaf","h":[1],"implicit":true,"k":[2],"l":[1],"liars":0,"links":0,"nodes":2,"repeats":1,"seed":"ffffffffffffffffffffffffffffffffffffffffffffffffffffffffffffffff","version":1}"#;

// Rings, roles on them (targets; liars; cut links), and below each the alerted edges, as targets crash or are deaf and
// the dead are silent or speak.
const COMPUTED: &str = r#"rings 1 3 0 4 2, 3 1 0 2 4, 0 1 2 4 3
roles 0; 4; 3.0
crash speak: 0.0 1.0 2.0 0.2 1.3 2.3
deaf speak: 0.0 1.0 2.0 2.1 0.2 1.2 1.3 2.3 0.4
roles 4; 1; 0.4
crash speak: 1.0 2.2 0.3 0.4 1.4 2.4
deaf speak: 1.0 0.2 2.2 0.3 1.3 2.3 0.4 1.4 2.4
roles 2; 0; 3.0
crash speak: 0.0 2.0 2.1 0.2 1.2 2.2 0.4
deaf speak: 0.0 2.0 0.1 2.1 0.2 1.2 2.2 0.4 1.4 2.4

rings 1 2 3 5 0 4 6, 4 0 6 5 2 3 1, 5 4 2 3 6 1 0, 4 2 1 3 6 5 0
roles 2; 6; 0.4
crash speak: 1.0 0.1 2.1 0.2 1.2 2.2 3.2 0.4 3.4 1.5 3.5
deaf speak: 1.0 0.1 2.1 3.1 0.2 1.2 2.2 3.2 0.3 1.3 2.3 0.4 3.4 1.5 3.5
roles 5; 1; 2.3
crash speak: 2.0 0.2 0.3 1.3 2.3 3.3 1.4 0.5 1.5 2.5 3.5
deaf speak: 0.0 2.0 3.0 0.2 1.2 0.3 1.3 2.3 3.3 1.4 2.4 0.5 1.5 2.5 3.5
roles 0; 1; 3.5
crash speak: 0.0 1.0 2.0 3.0 0.2 3.3 1.4 0.5
deaf speak: 0.0 1.0 2.0 3.0 0.2 3.3 0.4 1.4 3.4 0.5 2.5 1.6"#;

// What was worked out by hand.
const BY_HAND: &str = r#"rings 0 1 2 3, 0 2 1 3, 0 3 2 1
roles 1 2; ;
crash silent: 0.1 1.2 2.2
crash speak: 0.1 1.1 2.1 0.2 1.2 2.2
roles 2; ; 1.2
crash silent: 0.2 1.2 2.2
crash speak: 0.2 1.2 2.2
roles 1; ;
deaf silent: 2.0 0.1 1.1 2.1 0.2 1.3
roles ; 3;
crash silent: 0.0 1.0 2.2
roles ; ; 0.1
crash silent: 2.0 0.1
roles ; ;
crash silent:"#;

pub(super) fn computed() -> &'static str {
    COMPUTED
}

pub(super) fn by_hand() -> &'static str {
    BY_HAND
}

// Plans, and of each the number of a trial, and its targets, liars and cut links.
const ROLES: [(&str, &str); 9] = [
    (FIVE_CRASH, "0: 0; 4; 3.0"),
    (FIVE_DEAF, "1: 4; 1; 0.4"),
    (FIVE_CRASH, "4095999999: 2; 0; 3.0"),
    (SEVEN_CRASH, "0: 2; 6; 0.4"),
    (SEVEN_DEAF, "1: 5; 1; 2.3"),
    (SEVEN_CRASH, "4095999999: 0; 1; 3.5"),
    (TWO_CRASH, "0: 0; ;"),
    (TWO_DEAF, "1: 1; ;"),
    (TWO_CRASH, "4095999999: 1; ;"),
];

#[test]
fn roles_of_trials(rt: HostRuntime) -> Result<(), Fail> {
    for (text, row) in ROLES {
        assert!(rt; is_drawn(rt.alloc(), text, row)?, "{row}");
    }
    Ok(())
}
