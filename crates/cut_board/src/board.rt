//! The board.
ghost use Rattle.std.specs.Prelude.{◌≡◌, ℕ, ◌-◌, ◌<◌, ◌≤◌, [], Some, length, All, IfOk, IfErr, OnOk, OnErr};
ghost use Rattle.std.specs.Prelude.{MatchResult, map, vec_capacity};
ghost use Rattle.std.specs.List.{range_with_len};
ghost use Rattle.std.specs.Mem.Slots.{slots_items, slots_len, IsFull};
ghost use Rattle.cut_board.specs.inside.Closed.{words_of_study};
ghost use Rattle.cut_board.specs.Views.{idle, drew, counted, read, drawn_in, seen_in};
ghost use Rattle.cut_board.specs.inside.Views.{gathered};
ghost use Rattle.cut_board.specs.Words.{word_count};
ghost use Rattle.cut_board.specs.inside.Words.{draw_word, count_word};

use crate::rule::{BoardRule, Count, Draw, OnePart, Read, Size, TakeIn};
use crate::{BoardTotals, Seat, SeatFault, StudyTotals, Unfinished, View};
use atomic_table::{Closed, Table};
use std::alloc::{AllocError, Global};
use std::fmt;

/// What a seat may draw, and what it may count, over all studies.
const SEAT_LIMIT: u64 = 1 << 48;

type Token = atomic_table::Seat<(), View>;

/// Two words for each of some studies, which many threads draw numbers from and count on, each through a
/// seat of its own.
#[derive(Drop)]
pub struct Board {
    table: Table<(), View, Size, BoardRule, Global>,
    studies: u32,
    seats: u32,
    ghost sized: { (table.shared.key.studies ≡ studies) × (table.shared.key.seats ≡ seats) },
    ghost wide: { (table.shared.table_id.words ≡ word_count studies) × (table.shared.table_id.slots ≡ 0) },
    ghost few: { (0 < studies) × (studies ≤ 64) × (0 < seats) × (seats ≤ 129) },
}

/// The place of a study's draw word.
fn draw_place(study: u32) -> usize
    requires { study < 64 }
    ensures { result ≡ draw_word study }
{
    16 * study as usize
}

/// The place of its count word.
fn count_place(study: u32) -> usize
    requires { study < 64 }
    ensures { result ≡ count_word study }
{
    16 * study as usize + 8
}

impl Board {
    ghost use Rattle.cut_board.specs.Names.{board_id, studies_of, seats_of, board_of, view_of, views_of};
    ghost use Rattle.cut_board.specs.Refusals.{IsRefusedBy, draw_refusal, count_refusal, read_refusal};
    ghost use Rattle.cut_board.specs.Totals.{totals_of, IsDrawnOnce, HasSeenNoMore, IsWhyOf};

    /// A board of 1 to 64 studies, from which nothing is drawn and on which nothing is counted, and its 1 to 129 seats.
    pub fn start(alloc: Global, studies: u32, seats: u32) -> Result<(Board, Vec<Seat>), AllocError>
        requires studies { (0 < studies) × (studies ≤ 64) }
        requires seats { (0 < seats) × (seats ≤ 129) }
        ensures board { IfOk result (λ made. (studies_of made.0 ≡ studies) × (seats_of made.0 ≡ seats)) }
        ensures seats { IfOk result (λ made. length made.1.items ≡ seats) }
        ensures own { IfOk result (λ made. All (λ s. board_of s ≡ board_id made.0) made.1.items) }
        ensures idle { IfOk result (λ made. All (λ s. view_of s ≡ idle 1) made.1.items) }
    {
        let words = vec![in alloc; 0u64; 16 * studies as usize]?;
        let size = Size { studies, seats };
        let (table, token) = Table::of_words(alloc, words.as_slice(), &size)?;
        let board = Board {
            table,
            studies,
            seats,
        };
        let given = board.deal(alloc, token)?;
        Ok((board, given))
    }

    /// The seats, from the one that stands for all of them.
    fn deal(&self, alloc: Global, mut token: Token) -> Result<Vec<Seat>, AllocError>
        requires own { token.table_id ≡ board_id self.now }
        requires all { (token.me.0 ≡ idle (seats_of self.now)) × (token.me.1 ≡ []) }
        ensures seats { IfOk result (λ seats. length seats.items ≡ seats_of self.now) }
        ensures own { IfOk result (λ seats. All (λ s. board_of s ≡ board_id self.now) seats.items) }
        ensures idle { IfOk result (λ seats. All (λ s. view_of s ≡ idle 1) seats.items) }
    {
        let mut seats = Vec::with_capacity(alloc, self.seats as usize)?;
        for _ in 1..self.seats {
            let part = self.table.shared.split_seat::<OnePart>(&mut token);
            seats.push_reserved(seated(part));
        }
        seats.push_reserved(seated(token));
        Ok(seats)
    }

    /// Whether there is a study of this number.
    fn find(&self, study: u32) -> Result<(), SeatFault>
        ensures { MatchResult result (λ _. study < studies_of self.now)
            (λ e. (studies_of self.now ≤ study) × (e ≡ SeatFault.NoSlot)) }
    {
        if study >= self.studies {
            return Err(SeatFault::NoSlot);
        }
        Ok(())
    }

    /// Draws the next number of a study. All seats together draw 0, 1, 2 and so on, each once. The number is greater
    /// than any that this seat drew of the study before.
    pub fn draw(&self, seat: &mut Seat, study: u32) -> Result<u64, SeatFault>
        requires { board_of seat.old ≡ board_id self.now }
        ensures own { board_of seat.new ≡ board_of seat.old }
        ensures draws { IfOk result (λ n. view_of seat.new ≡ drew (view_of seat.old) study n) }
        ensures rises { IfOk result (λ n. All (λ m. m < n) (drawn_in study (view_of seat.old))) }
        ensures why { IsRefusedBy (draw_refusal (studies_of self.now) (view_of seat.old) study) result }
        ensures err { OnErr result (seat.new ≡ seat.old) }
    {
        self.find(study)?;
        if seat.drawn >= SEAT_LIMIT {
            return Err(SeatFault::SeatFull);
        }
        let number = self
            .table
            .shared
            .fetch_add::<Draw>(&mut seat.token, draw_place(study), 1);
        seat.drawn += 1;
        Ok(number)
    }

    /// Counts n more of a study.
    pub fn count(&self, seat: &mut Seat, study: u32, n: u64) -> Result<(), SeatFault>
        requires { board_of seat.old ≡ board_id self.now }
        ensures own { board_of seat.new ≡ board_of seat.old }
        ensures counts { OnOk result (view_of seat.new ≡ counted (view_of seat.old) study n) }
        ensures why { IsRefusedBy (count_refusal (studies_of self.now) (view_of seat.old) study n) result }
        ensures err { OnErr result (seat.new ≡ seat.old) }
    {
        self.find(study)?;
        if n > SEAT_LIMIT - seat.counted {
            return Err(SeatFault::SeatFull);
        }
        self.table
            .shared
            .fetch_add::<Count>(&mut seat.token, count_place(study), n);
        seat.counted += n;
        Ok(())
    }

    /// Reads what was counted of a study: at least what this seat has counted and read before.
    pub fn read(&self, seat: &mut Seat, study: u32) -> Result<u64, SeatFault>
        requires { board_of seat.old ≡ board_id self.now }
        ensures own { board_of seat.new ≡ board_of seat.old }
        ensures reads { IfOk result (λ n. view_of seat.new ≡ read (view_of seat.old) study n) }
        ensures seen { IfOk result (λ n. n ≡ seen_in study (view_of seat.new)) }
        ensures rises { IfOk result (λ n. seen_in study (view_of seat.old) ≤ n) }
        ensures why { IsRefusedBy (read_refusal (studies_of self.now) study) result }
        ensures err { OnErr result (seat.new ≡ seat.old) }
    {
        self.find(study)?;
        Ok(
            self.table
                .shared
                .load::<Read>(&mut seat.token, count_place(study)),
        )
    }

    /// Ends the board, which takes all its seats, and reports what was drawn and counted of each study: of the numbers,
    /// how many there are, which are those below that, each once. Where seats are missing, the board and these seats
    /// come back as they were; if memory runs out, nothing does.
    pub fn finish(self, alloc: Global, seats: Vec<Seat>) -> Result<BoardTotals, Unfinished>
        requires { All (λ s. board_of s ≡ board_id self) seats.items }
        ensures totals { IfOk result (λ totals. totals ≡ totals_of (studies_of self) (views_of seats.items)) }
        ensures numbers { OnOk result ((study : ℕ) → study < studies_of self
            → IsDrawnOnce (views_of seats.items) study) }
        ensures seen { OnOk result ((study : ℕ) → study < studies_of self
            → HasSeenNoMore (views_of seats.items) study) }
        ensures whole { OnOk result (length seats.items ≡ seats_of self) }
        ensures why { IfErr result (λ e. IsWhyOf self seats.items e) }
    {
        if seats.len() < self.seats as usize {
            return Err(Unfinished::SeatMissing(self, seats));
        }
        let Ok(room) = Vec::with_capacity(alloc, self.studies as usize) else {
            return Err(Unfinished::Memory);
        };
        let whole = self.gather(seats);
        let Board {
            table,
            studies,
            seats: _,
        } = self;
        let closed = table.close_with(whole);
        let totals = read_totals(&closed, room, studies);
        closed.free();
        Ok(BoardTotals::from_vec(totals))
    }

    /// One seat that has done what all these have done.
    fn gather(&self, mut seats: Vec<Seat>) -> Token
        requires own { All (λ s. board_of s ≡ board_id self.now) seats.items }
        requires some { 0 < length seats.items }
        ensures own { result.table_id ≡ board_id self.now }
        ensures gathered { result.me.0 ≡ gathered (views_of seats.items) }
    {
        let Some(first) = seats.pop() else {
            unreachable!()
        };
        let mut whole = first.token;
        while let Some(seat) = seats.pop() {
            self.table
                .shared
                .join_seat::<TakeIn>(&mut whole, seat.token);
        }
        whole
    }
}

/// The totals of a study by the words of a closed board.
fn study_totals(closed: &Closed<(), Global>, study: u32) -> StudyTotals
    requires study { study < 64 }
    requires words { IsFull closed.now.words × (count_word study < slots_len closed.now.words) }
    ensures { result ≡ words_of_study (slots_items closed.now.words) study }
{
    StudyTotals {
        draws: closed.word(draw_place(study)),
        count: closed.word(count_place(study)),
    }
}

/// The totals of all studies.
fn read_totals(
    closed: &Closed<(), Global>,
    mut totals: Vec<StudyTotals>,
    studies: u32,
) -> Vec<StudyTotals>
    requires words { IsFull closed.now.words × (slots_len closed.now.words ≡ word_count studies) }
    requires few { studies ≤ 64 }
    requires room { (totals.items ≡ []) × (studies ≤ vec_capacity totals) }
    ensures { result.items ≡ map (words_of_study (slots_items closed.now.words)) (range_with_len 0 studies) }
{
    for study in 0..studies {
        totals.push_reserved(study_totals(closed, study));
    }
    totals
}

impl fmt::Debug for Board {
    fn fmt<W: fmt::Write>(&self, f: &mut fmt::Formatter<W>) -> fmt::Result {
        f.debug_struct("Board")
            .field("studies", &self.studies)
            .field("seats", &self.seats)
            .finish()
    }
}

/// A seat of a part that has done nothing.
fn seated(token: Token) -> Seat
    requires { (token.me.0 ≡ idle 1) × (token.me.1 ≡ []) }
    ensures { result.token ≡ token }
{
    Seat {
        token,
        drawn: 0,
        counted: 0,
    }
}
