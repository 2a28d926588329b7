use cut_faults::{Failures, FaultCode, name_of_number, status_of_number};
use std::alloc::{AllocError, Global};
use std::test::Fail;

/// Faults as they are printed: their numbers and their names.
const PRINTED: &str = "0 Memory
7 NotRising
19 PlanTooLong
32 Memory
45 BadLength
46 Disagrees
47 NotVersion1";

/// Whether the fault whose number a row begins with is printed as the row.
fn is_printed(alloc: Global, row: &str) -> Result<bool, AllocError> {
    let (number, _) = row.split_once(' ').unwrap_or((row, ""));
    match FaultCode::of_number(number.parse::<u16>().unwrap_or(u16::MAX)) {
        Some(code) => Ok(code.to_string(alloc)?.as_str() == row),
        None => Ok(false),
    }
}

#[test]
fn faults_are_printed(rt: HostRuntime) -> Result<(), Fail> {
    for row in PRINTED.lines() {
        assert!(rt; is_printed(rt.alloc(), row)?, "{row}");
    }
    Ok(())
}

/// The faults: their numbers, their names, and the statuses that a program ends with by them.
const FAULTS: &str = "0 Memory 5
1 NotJson 3
2 NotObject 3
3 UnknownField 3
4 MissingField 3
5 WrongKind 3
6 OutOfRange 3
7 NotRising 3
8 NoCell 3
9 TooManyFaults 3
10 TooManyTrials 3
11 NotPermutation 4
12 TooFew 4
13 BadRole 4
14 BadPiece 4
15 Stranger 4
16 Overlap 4
17 BadSlip 4
18 NotDone 4
19 PlanTooLong 3
20 Disk 4
21 Broken 4
22 NoStudy 4
23 OtherPlan 4
24 Damaged 4
25 Held 4
26 NoSlot 4
27 SeatFull 4
28 SeatMissing 4
29 SlotsFull 4
30 Checkpoint 4
31 Write 4
32 Memory 5
33 AuditMismatch 4
34 Stopped 4
40 BadKind 4
41 TooLong 4
42 Truncated 4
43 Read 4
44 TooManyRequests 4
45 BadLength 4
46 Disagrees 4
47 NotVersion1 3";

/// Whether the fault of a row has the name and the status that the row gives.
fn is_listed(row: &str) -> bool {
    let (number, rest) = row.split_once(' ').unwrap_or((row, ""));
    let (name, status) = rest.split_once(' ').unwrap_or((rest, ""));
    let number = number.parse::<u16>().unwrap_or(u16::MAX);
    name_of_number(number) == name && status.parse::<u8>() == Ok(status_of_number(number))
}

#[test]
fn numbers_name_faults(rt: HostRuntime) {
    for row in FAULTS.lines() {
        assert!(rt; is_listed(row), "{row}");
    }
    assert!(rt; FaultCode::of_number(16) == Some(FaultCode::Overlap));
    assert!(rt; FaultCode::of_number(35) == None);
    assert!(rt; is_listed("48 Unknown 4") && is_listed("65535 Unknown 4"));
}

#[test]
fn failures_are_counted(rt: HostRuntime) {
    let mut failures = Failures::none();
    assert!(rt; failures.count() == 0);
    failures.add();
    failures.add();
    assert!(rt; failures.count() == 2);
}
