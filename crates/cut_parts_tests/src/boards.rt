//! Boards worked out by hand, and boards under many threads.
ghost use Rattle.std.specs.Prelude.{◌≡◌, ◌<◌, ◌≤◌, All, IfOk, IfSome};
ghost use Rattle.cut_board.specs.Names.{board_id, board_of};

use cut_board::{Board, Seat, SeatFault, StudyTotals, Unfinished};
use std::alloc::Global;
use std::process::Abort;
use std::test::Fail;
use std::thread;
use std::thread::Threads;

/// A board of some studies, and its two seats.
fn two_seats(alloc: Global, studies: u32) -> Result<(Board, Seat, Seat), Fail>
    requires { (0 < studies) × (studies ≤ 64) }
    ensures { IfOk result (λ t. (board_of t.1 ≡ board_id t.0) × (board_of t.2 ≡ board_id t.0)) }
{
    let (board, mut seats) = Board::start(alloc, studies, 2)?;
    let Some(b) = seats.pop() else { unreachable!() };
    let Some(a) = seats.pop() else { unreachable!() };
    Ok((board, a, b))
}

/// Draws, counts and reads of two seats by turns, and a study that there is not.
fn check_turns(rt: &impl Abort, board: &Board, a: &mut Seat, b: &mut Seat)
    requires of_a { board_of a.old ≡ board_id board.now }
    requires of_b { board_of b.old ≡ board_id board.now }
    ensures a { board_of a.new ≡ board_of a.old }
    ensures b { board_of b.new ≡ board_of b.old }
{
    let numbers = [board.draw(a, 0), board.draw(b, 0), board.draw(a, 0)];
    assert!(rt; numbers == [Ok(0), Ok(1), Ok(2)]);
    assert!(rt; [board.count(a, 0, 5), board.count(b, 0, 3)] == [Ok(()), Ok(())]);
    assert!(rt; board.read(a, 0) == Ok(8));
    assert!(rt; board.draw(a, 1) == Err(SeatFault::NoSlot));
    assert!(rt; board.count(a, 0, 1 << 48) == Err(SeatFault::SeatFull));
}

/// A board that lacks one of its two seats hands back itself and the other one.
fn lacks_a_seat(alloc: Global, board: Board, seat: Seat) -> Result<(Board, Seat), Fail>
    requires { board_of seat ≡ board_id board }
    ensures { IfOk result (λ t. (board_id t.0 ≡ board_id board) × (board_of t.1 ≡ board_of seat)) }
{
    match board.finish(alloc, vec![in alloc; seat]?) {
        Err(Unfinished::SeatMissing(board, mut seats)) => match seats.pop() {
            Some(seat) => Ok((board, seat)),
            None => Err(Fail::new("the seat came not back")),
        },
        _ => Err(Fail::new("a seat was missing")),
    }
}

#[test]
fn two_seats_share_a_board(rt: HostRuntime) -> Result<(), Fail> {
    let alloc = rt.alloc();
    let (board, mut a, mut b) = two_seats(alloc, 1)?;
    check_turns(&rt, &board, &mut a, &mut b);
    let (board, a) = lacks_a_seat(alloc, board, a)?;
    let totals = board.finish(alloc, vec![in alloc; b, a]?)?;
    assert!(rt; totals.as_slice() == [StudyTotals { draws: 3, count: 8 }].as_slice());
    Ok(())
}

#[test]
fn faults_of_seats_are_printed(rt: HostRuntime) -> Result<(), Fail> {
    let rows = [
        (SeatFault::NoSlot, "26 NoSlot"),
        (SeatFault::SeatFull, "27 SeatFull"),
    ];
    for (fault, text) in rows {
        assert!(rt; fault.to_string(rt.alloc())?.as_str() == text, "{text}");
    }
    Ok(())
}

/// Why a board is not finished that is given one of its two seats.
fn unfinished(alloc: Global) -> Result<Unfinished, Fail> {
    let (board, a, _b) = two_seats(alloc, 1)?;
    match board.finish(alloc, vec![in alloc; a]?) {
        Ok(_) => Err(Fail::new("a seat was missing")),
        Err(why) => Ok(why),
    }
}

#[test]
fn faults_of_boards_are_printed(rt: HostRuntime) -> Result<(), Fail> {
    let alloc = rt.alloc();
    assert!(rt; unfinished(alloc)?.to_string(alloc)?.as_str() == "28 SeatMissing");
    assert!(rt; Unfinished::Memory.to_string(alloc)?.as_str() == "0 Memory");
    Ok(())
}

/// A seat at its limits still reads, and the other seat still draws and counts.
fn check_limits(rt: &impl Abort, board: &Board, a: &mut Seat, b: &mut Seat)
    requires of_a { board_of a.old ≡ board_id board.now }
    requires of_b { board_of b.old ≡ board_id board.now }
{
    let counts = [
        board.count(a, 0, (1 << 48) - 1),
        board.count(a, 1, 1),
        board.count(a, 0, 1),
        board.count(a, 0, 0),
    ];
    assert!(rt; counts == [Ok(()), Ok(()), Err(SeatFault::SeatFull), Ok(())]);
    assert!(rt; board.draw(b, 0) == Ok(0));
    assert!(rt; board.count(b, 0, 7) == Ok(()));
    assert!(rt; board.read(a, 0) == Ok((1 << 48) + 6));
}

#[test]
fn a_full_seat_reads_on(rt: HostRuntime) -> Result<(), Fail> {
    let (board, mut a, mut b) = two_seats(rt.alloc(), 2)?;
    check_limits(&rt, &board, &mut a, &mut b);
    Ok(())
}

/// What one thread did.
#[derive(Drop)]
struct Worked {
    seat: Seat,
    numbers: Vec<u64>,
    low_reads: u64,
}

/// A draw of study 1, with a count of 3 and a read, and what the read has.
fn turn(board: &Board, seat: &mut Seat, numbers: &mut Vec<u64>) -> Option<u64>
    requires { board_of seat.old ≡ board_id board.now }
    ensures { board_of seat.new ≡ board_of seat.old }
{
    let number = board.draw(seat, 1).ok()?;
    numbers.push(number).ok()?;
    board.count(seat, 1, 3).ok()?;
    board.read(seat, 1).ok()
}

/// A thousand of these turns, and how many of their reads have less than was counted.
fn low_reads(board: &Board, seat: &mut Seat, numbers: &mut Vec<u64>) -> Option<u64>
    requires { board_of seat.old ≡ board_id board.now }
    ensures { board_of seat.new ≡ board_of seat.old }
{
    let mut low_reads = 0u64;
    for number in 1..1001u64 {
        let seen = turn(board, seat, numbers)?;
        low_reads = low_reads.saturating_add(u64::from(seen < 3 * number));
    }
    Some(low_reads)
}

/// What a thread does: the turns of its seat.
fn work(board: &Board, alloc: Global, mut seat: Seat) -> Option<Worked>
    requires { board_of seat ≡ board_id board.now }
    ensures { IfSome result (λ done. board_of done.seat ≡ board_id board.now) }
{
    let mut numbers = Vec::new(alloc);
    let low_reads = low_reads(board, &mut seat, &mut numbers)?;
    Some(Worked {
        seat,
        numbers,
        low_reads,
    })
}

/// The same by each of some seats, in a thread of its own.
fn work_all<R: Threads + Sync>(
    rt: &R,
    board: &Board,
    alloc: Global,
    seats: Vec<Seat>,
) -> Result<Vec<Option<Worked>>, Fail>
    requires { All (λ s. board_of s ≡ board_id board.now) seats.items }
    ensures { IfOk result (λ all. All (λ one. IfSome one (λ done. board_of done.seat ≡ board_id board.now)) all.items) }
{
    Ok(thread::map_vec(
        rt,
        seats,
        &|seat: Seat| -> Option<Worked>
            requires { board_of seat ≡ board_id board.now }
            ensures { IfSome result (λ done. board_of done.seat ≡ board_id board.entry.now) }
        { work(board, alloc, seat) },
    )?)
}

/// Whether sorted numbers are those below `all`, each once.
fn are_first(numbers: &[u64], all: u64) -> bool {
    numbers.len() as u64 == all && numbers.iter().zip(0..all).all(|(number, i)| *number == i)
}

/// The totals of two studies of which the second was drawn from so often, each time with a count of 3.
fn drawn_by_threads(all: u64) -> [StudyTotals; 2] {
    let none = StudyTotals { draws: 0, count: 0 };
    let each = StudyTotals {
        draws: all,
        count: all.saturating_mul(3),
    };
    [none, each]
}

/// Every number is drawn once by the threads together, and each thread's reads have all that it counted.
fn draw_by_threads<R: Threads + Abort + Sync>(rt: &R, alloc: Global, seats: u32) -> Result<(), Fail>
    requires { (0 < seats) × (seats ≤ 129) }
{
    let (board, given) = Board::start(alloc, 2, seats)?;
    let mut back = Vec::new(alloc);
    let mut numbers = Vec::new(alloc);
    let mut all_done = work_all(rt, &board, alloc, given)?;
    while let Some(done) = all_done.pop() {
        let Some(done) = done else {
            return Err(Fail::new("a call was refused"))
        };
        assert!(rt; done.low_reads == 0);
        numbers.extend_from_slice(done.numbers.as_slice())?;
        back.push(done.seat)?;
    }
    numbers.sort_unstable();
    let all = 1000 * u64::from(seats);
    assert!(rt; are_first(&numbers, all));
    let totals = board.finish(alloc, back)?;
    assert!(rt; totals.as_slice() == drawn_by_threads(all).as_slice());
    Ok(())
}

#[test]
fn four_threads_draw_each_number_once(rt: HostRuntime) -> Result<(), Fail> {
    draw_by_threads(&rt, rt.alloc(), 4)
}

#[test]
fn as_do_sixty_four(rt: HostRuntime) -> Result<(), Fail> {
    draw_by_threads(&rt, rt.alloc(), 64)
}

/// A seat draws from the last of 64 studies and counts there, and finds none after it.
fn check_last_study(rt: &impl Abort, board: &Board, seat: &mut Seat)
    requires { board_of seat.old ≡ board_id board.now }
    ensures { board_of seat.new ≡ board_of seat.old }
{
    assert!(rt; board.draw(seat, 63) == Ok(0));
    assert!(rt; board.count(seat, 63, 2) == Ok(()));
    assert!(rt; board.read(seat, 64) == Err(SeatFault::NoSlot));
}

/// The totals of 64 studies, of which the last was drawn from once and counted 2 in.
fn is_last_alone(totals: &[StudyTotals]) -> bool {
    totals.len() == 64
        && totals[62] == StudyTotals { draws: 0, count: 0 }
        && totals[63] == StudyTotals { draws: 1, count: 2 }
}

/// A board of 64 studies gives as many seats as asked, and takes them all back.
fn check_seats(rt: &impl Abort, alloc: Global, count: u32) -> Result<(), Fail>
    requires { (0 < count) × (count ≤ 129) }
{
    let (board, mut seats) = Board::start(alloc, 64, count)?;
    assert!(rt; seats.len() == count as usize);
    let Some(last) = seats.last_mut() else {
        unreachable!()
    };
    check_last_study(rt, &board, last);
    assert!(rt; is_last_alone(board.finish(alloc, seats)?.as_slice()));
    Ok(())
}

#[test]
fn a_board_has_up_to_64_studies_and_129_seats(rt: HostRuntime) -> Result<(), Fail> {
    check_seats(&rt, rt.alloc(), 129)
}

#[test]
fn a_board_of_65_seats(rt: HostRuntime) -> Result<(), Fail> {
    check_seats(&rt, rt.alloc(), 65)
}
