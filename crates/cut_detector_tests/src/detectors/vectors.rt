// Rings, lists of deliveries of their edges, and below each list what is proposed: at H and L, with implicit alerts or
// without, the members and the number of the delivery.

// What is proposed in each order that a script apart from this crate drew, as it computed it from sets and counts.
const COMPUTED: &str = r#"rings 1 3 0 4 2, 3 1 0 2 4, 0 1 2 4 3
deliveries 0.0 1.0 2.3 0.2 2.0 1.3
1 1 off: 0 at 1
1 1 on: 0 at 1
2 1 off: 0 at 2
2 1 on: 0 at 2
2 2 off: 0 at 2
2 2 on: 0 at 2
3 1 off: none
3 1 on: none
3 2 off: 0 at 5
3 2 on: 0 at 5
3 3 off: 0 at 5
3 3 on: 0 at 5
deliveries 0.3 2.4 1.4 0.4 2.2 1.0
1 1 off: 3 at 1
1 1 on: 3 at 1
2 1 off: none
2 1 on: 3 4 at 3
2 2 off: 4 at 3
2 2 on: 4 at 3
3 1 off: none
3 1 on: 3 4 at 4
3 2 off: 4 at 4
3 2 on: 4 at 4
3 3 off: 4 at 4
3 3 on: 4 at 4
deliveries 2.2 2.0 0.0 0.4 0.2 1.2 2.1
1 1 off: 2 at 1
1 1 on: 2 at 1
2 1 off: none
2 1 on: 0 2 at 3
2 2 off: 0 at 3
2 2 on: 0 at 3
3 1 off: none
3 1 on: none
3 2 off: none
3 2 on: none
3 3 off: 2 at 6
3 3 on: 2 at 6

rings 1 3 0 4 2, 3 1 0 2 4, 0 1 2 4 3
deliveries 0.4 0.0 1.0 2.1 2.3 0.2 2.0 1.3 1.2
1 1 off: 4 at 1
1 1 on: 4 at 1
2 1 off: none
2 1 on: 0 1 2 3 4 at 6
2 2 off: 0 at 3
2 2 on: 0 at 3
3 1 off: none
3 1 on: 0 1 2 3 4 at 6
3 2 off: 0 at 7
3 2 on: 0 at 7
3 3 off: 0 at 7
3 3 on: 0 at 7
deliveries 0.3 2.4 1.4 1.3 0.4 2.2 2.3 0.2 1.0
1 1 off: 3 at 1
1 1 on: 3 at 1
2 1 off: 3 4 at 4
2 1 on: 3 4 at 3
2 2 off: 4 at 3
2 2 on: 4 at 3
3 1 off: none
3 1 on: 3 4 at 5
3 2 off: 3 4 at 7
3 2 on: 3 4 at 5
3 3 off: 4 at 5
3 3 on: 4 at 5
deliveries 1.4 2.2 2.0 2.4 0.0 0.4 0.2 1.2 2.1 0.1
1 1 off: 4 at 1
1 1 on: 4 at 1
2 1 off: 0 2 4 at 7
2 1 on: 2 4 at 2
2 2 off: 4 at 4
2 2 on: 4 at 4
3 1 off: none
3 1 on: none
3 2 off: none
3 2 on: none
3 3 off: 4 at 6
3 3 on: 4 at 6

rings 1 2 3 5 0 4 6, 4 0 6 5 2 3 1, 5 4 2 3 6 1 0, 4 2 1 3 6 5 0
deliveries 1.2 2.1 3.4 3.5 0.2 0.1 1.5 2.2 0.4 3.2 1.0
1 1 off: 2 at 1
1 1 on: 2 at 1
2 1 off: 1 2 4 5 at 9
2 1 on: 1 2 at 2
2 2 off: 2 at 5
2 2 on: 2 at 5
3 1 off: none
3 1 on: 0 1 2 4 5 at 11
3 2 off: none
3 2 on: none
3 3 off: 2 at 8
3 3 on: 2 at 8
4 1 off: none
4 1 on: none
4 2 off: none
4 2 on: none
4 3 off: 2 at 10
4 3 on: 2 at 10
4 4 off: 2 at 10
4 4 on: 2 at 10
deliveries 2.3 0.2 0.5 1.4 2.0 3.5 2.5 0.3 3.3 1.3 1.5
1 1 off: 3 at 1
1 1 on: 3 at 1
2 1 off: none
2 1 on: 0 2 3 4 5 at 5
2 2 off: 5 at 6
2 2 on: 5 at 6
3 1 off: none
3 1 on: 0 2 3 4 5 at 6
3 2 off: 5 at 7
3 2 on: 5 at 7
3 3 off: 5 at 7
3 3 on: 5 at 7
4 1 off: none
4 1 on: 0 2 3 4 5 at 11
4 2 off: 3 5 at 11
4 2 on: 3 5 at 11
4 3 off: 3 5 at 11
4 3 on: 3 5 at 11
4 4 off: 3 at 10
4 4 on: 3 at 10
deliveries 0.2 2.0 1.0 1.4 3.3 0.5 0.0 3.0
1 1 off: 2 at 1
1 1 on: 2 at 1
2 1 off: none
2 1 on: 0 2 4 at 4
2 2 off: 0 at 3
2 2 on: 0 at 3
3 1 off: none
3 1 on: none
3 2 off: 0 at 7
3 2 on: 0 at 7
3 3 off: 0 at 7
3 3 on: 0 at 7
4 1 off: none
4 1 on: none
4 2 off: 0 at 8
4 2 on: 0 at 8
4 3 off: 0 at 8
4 3 on: 0 at 8
4 4 off: 0 at 8
4 4 on: 0 at 8

rings 1 2 3 5 0 4 6, 4 0 6 5 2 3 1, 5 4 2 3 6 1 0, 4 2 1 3 6 5 0
deliveries 1.2 2.3 2.1 1.3 3.4 3.5 0.2 0.3 0.1 1.5 3.1 2.2 0.4 3.2 1.0
1 1 off: 2 at 1
1 1 on: 2 at 1
2 1 off: 1 2 3 4 5 at 13
2 1 on: 1 2 3 at 3
2 2 off: 3 at 4
2 2 on: 3 at 4
3 1 off: none
3 1 on: 1 2 3 4 5 at 10
3 2 off: none
3 2 on: 1 2 3 5 at 12
3 3 off: 3 at 8
3 3 on: 3 at 8
4 1 off: none
4 1 on: 0 1 2 3 4 5 at 15
4 2 off: none
4 2 on: none
4 3 off: none
4 3 on: 1 3 at 11
4 4 off: 2 at 14
4 4 on: 2 at 14
deliveries 2.3 0.2 0.5 1.4 2.0 0.0 3.5 2.5 0.3 1.2 3.3 1.3 1.5 3.0 2.4
1 1 off: 3 at 1
1 1 on: 3 at 1
2 1 off: 0 2 3 4 5 at 15
2 1 on: 0 2 3 4 5 at 5
2 2 off: 0 at 6
2 2 on: 0 at 6
3 1 off: none
3 1 on: 0 2 3 4 5 at 7
3 2 off: none
3 2 on: 0 5 at 7
3 3 off: 5 at 8
3 3 on: 5 at 8
4 1 off: none
4 1 on: 0 2 3 4 5 at 13
4 2 off: none
4 2 on: 0 2 3 4 5 at 15
4 3 off: 3 5 at 13
4 3 on: 3 5 at 13
4 4 off: 3 at 12
4 4 on: 3 at 12
deliveries 1.6 2.5 0.2 2.0 1.0 0.4 1.4 3.3 0.5 0.0 3.4 3.0
1 1 off: 6 at 1
1 1 on: 6 at 1
2 1 off: none
2 1 on: 0 2 4 5 6 at 6
2 2 off: 0 at 5
2 2 on: 0 at 5
3 1 off: none
3 1 on: 0 2 3 4 5 6 at 8
3 2 off: none
3 2 on: none
3 3 off: 0 at 10
3 3 on: 0 at 10
4 1 off: none
4 1 on: 0 2 3 4 5 6 at 8
4 2 off: none
4 2 on: none
4 3 off: none
4 3 on: none
4 4 off: 0 at 12
4 4 on: 0 at 12

rings 1 0, 1 0
deliveries 0.0 1.0
1 1 off: 0 at 1
1 1 on: 0 at 1
2 1 off: 0 at 2
2 1 on: 0 at 2
2 2 off: 0 at 2
2 2 on: 0 at 2
deliveries 1.1 0.1
1 1 off: 1 at 1
1 1 on: 1 at 1
2 1 off: 1 at 2
2 1 on: 1 at 2
2 2 off: 1 at 2
2 2 on: 1 at 2
deliveries 0.1 1.1
1 1 off: 1 at 1
1 1 on: 1 at 1
2 1 off: 1 at 2
2 1 on: 1 at 2
2 2 off: 1 at 2
2 2 on: 1 at 2

rings 1 0, 1 0
deliveries 0.0 0.1 1.0 1.1
1 1 off: 0 at 1
1 1 on: 0 at 1
2 1 off: 0 1 at 4
2 1 on: 0 1 at 2
2 2 off: 0 at 3
2 2 on: 0 at 3
deliveries 1.1 0.1 1.0 0.0
1 1 off: 1 at 1
1 1 on: 1 at 1
2 1 off: 1 at 2
2 1 on: 1 at 2
2 2 off: 1 at 2
2 2 on: 1 at 2
deliveries 0.1 1.1 1.0 0.0
1 1 off: 1 at 1
1 1 on: 1 at 1
2 1 off: 1 at 2
2 1 on: 1 at 2
2 2 off: 1 at 2
2 2 on: 1 at 2"#;

// Lists of which some rows were worked out by hand. The rows at the other watermarks are by a script apart from
// this crate, which agrees with those.
const BY_HAND: &str = r#"rings 0 1 2 3, 0 2 1 3, 0 3 2 1
deliveries 0.1 1.1 2.1 0.2
1 1 off: 1 at 1
1 1 on: 1 at 1
2 1 off: 1 at 2
2 1 on: 1 at 2
2 2 off: 1 at 2
2 2 on: 1 at 2
3 1 off: 1 at 3
3 1 on: 1 at 3
3 2 off: 1 at 3
3 2 on: 1 at 3
3 3 off: 1 at 3
3 3 on: 1 at 3
deliveries 1.2 2.2 0.1
1 1 off: 2 at 1
1 1 on: 2 at 1
2 1 off: 2 at 2
2 1 on: 2 at 2
2 2 off: 2 at 2
2 2 on: 2 at 2
3 1 off: none
3 1 on: 1 2 at 3
3 2 off: none
3 2 on: none
3 3 off: none
3 3 on: none
deliveries 0.2 1.2 2.2
1 1 off: 2 at 1
1 1 on: 2 at 1
2 1 off: 2 at 2
2 1 on: 2 at 2
2 2 off: 2 at 2
2 2 on: 2 at 2
3 1 off: 2 at 3
3 1 on: 2 at 3
3 2 off: 2 at 3
3 2 on: 2 at 3
3 3 off: 2 at 3
3 3 on: 2 at 3
deliveries 0.1 0.1 0.1
1 1 off: 1 at 1
1 1 on: 1 at 1
2 1 off: none
2 1 on: none
2 2 off: none
2 2 on: none
3 1 off: none
3 1 on: none
3 2 off: none
3 2 on: none
3 3 off: none
3 3 on: none
deliveries 0.2 0.1 1.1 2.1 1.3 2.0
1 1 off: 2 at 1
1 1 on: 2 at 1
2 1 off: none
2 1 on: 1 2 3 at 5
2 2 off: 1 at 3
2 2 on: 1 at 3
3 1 off: none
3 1 on: 0 1 2 3 at 6
3 2 off: 1 at 4
3 2 on: 1 at 4
3 3 off: 1 at 4
3 3 on: 1 at 4
deliveries 0.1 1.1 2.1 0.2 1.3 2.0
1 1 off: 1 at 1
1 1 on: 1 at 1
2 1 off: 1 at 2
2 1 on: 1 at 2
2 2 off: 1 at 2
2 2 on: 1 at 2
3 1 off: 1 at 3
3 1 on: 1 at 3
3 2 off: 1 at 3
3 2 on: 1 at 3
3 3 off: 1 at 3
3 3 on: 1 at 3
deliveries 2.0 1.3 0.2 2.1 1.1 0.1
1 1 off: 0 at 1
1 1 on: 0 at 1
2 1 off: none
2 1 on: 0 3 at 2
2 2 off: 1 at 5
2 2 on: 1 at 5
3 1 off: none
3 1 on: 0 2 3 at 3
3 2 off: 1 at 6
3 2 on: 1 at 6
3 3 off: 1 at 6
3 3 on: 1 at 6"#;

pub(super) fn computed() -> &'static str {
    COMPUTED
}

pub(super) fn by_hand() -> &'static str {
    BY_HAND
}
