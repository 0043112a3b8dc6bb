//! Shows on standard error how publishing at several origins goes on.
use crate::meter::Meter;
use ll_announce::{Said, Standing};
use ll_pair::Pair;
use ll_push::Watch;
use ll_socket::Address;
use std::alloc::{AllocError, Global};
use std::fmt::Display;
use std::sync::{Mutex, Wait};
use std::time::Clock;

/// What is known of one origin.
#[derive(Clone, Copy, PartialEq, Eq)]
enum Link {
    /// It isn't connected.
    Lost,
    /// It is connected.
    Connected,
    /// It is left.
    Left,
}

/// What is shown of one origin.
#[derive(Drop)]
struct Row<'a> {
    address: &'a Address,
    link: Link,
    /// Whether it was said that an item couldn't be kept.
    unkept: bool,
}

/// What is shown.
#[derive(Drop)]
struct Rows<'a, R> {
    meter: Meter<'a, R>,
    rows: Vec<Row<'a>>,
}

/// What is shown, for all threads.
#[derive(Drop)]
pub(crate) struct Board<'a, R>(Mutex<Rows<'a, R>>);

impl<'a, R: Eprint + Clock + Wait> Board<'a, R> {
    /// Returns what is shown of the origins at `addresses`, none of which is connected; `shown` says whether it is a terminal.
    pub(crate) fn new(
        rt: &'a R,
        alloc: Global,
        addresses: &'a [Address],
        shown: bool,
    ) -> Result<Board<'a, R>, AllocError> {
        let mut rows = Vec::new(alloc);
        for address in addresses {
            let row = Row {
                address,
                link: Link::Lost,
                unkept: false,
            };
            if rows.push(row).is_err() {
                return Err(AllocError);
            }
        }
        let meter = Meter::new(rt, shown);
        Ok(Board(Mutex::new(Rows { meter, rows })))
    }

    /// Shows a rendition that is published from `standing` on.
    pub(crate) fn stands(&self, rt: &R, standing: &Standing) {
        self.0.lock(rt).meter.stands(standing);
    }

    /// Shows that a message of `bytes` bytes that announces `said` was given, and which origins of `pair` are left.
    pub(crate) fn given(&self, rt: &R, pair: &Pair, said: Said, bytes: usize) {
        let mut shown = self.0.lock(rt);
        let Rows { meter, rows } = &mut *shown;
        let due = meter.add(said, bytes);
        for (number, row) in rows.iter_mut().enumerate() {
            let behind = pair.behind(rt, number);
            if behind.is_none() && row.link != Link::Left {
                row.link = Link::Left;
                meter.end_line();
                let _ = eprintln!(rt; "llhls: {} is left: Behind", row.address);
            }
            if due {
                show(rt, row, behind);
            }
        }
    }

    /// Leaves the origin `number` of `pair`, and says that this is because of `why`. If it was left before, does nothing and returns false.
    pub(crate) fn leave<D: Display + Drop>(
        &self,
        rt: &R,
        pair: &Pair,
        number: usize,
        why: D,
    ) -> bool {
        // Locked first, or `given` could find it left, and say that it is behind.
        let mut shown = self.0.lock(rt);
        if !pair.leave(rt, number) {
            return false;
        }
        let Rows { meter, rows } = &mut *shown;
        if let Some(row) = rows.get_mut(number) {
            row.link = Link::Left;
            meter.end_line();
            let _ = eprintln!(rt; "llhls: {} is left: {why}", row.address);
        }
        true
    }

    /// Ends the line that was shown.
    pub(crate) fn end(&self, rt: &R) {
        self.0.lock(rt).meter.end_line();
    }
}

/// Shows an origin for which `behind` bytes wait, after what is shown of others.
fn show<R: Eprint>(rt: &R, row: &Row<'_>, behind: Option<usize>) {
    let kilobytes = behind.unwrap_or(0) / 1_000;
    let _ = match row.link {
        Link::Left => eprint!(rt; "| {} left ", row.address),
        Link::Connected if kilobytes == 0 => eprint!(rt; "| {} connected ", row.address),
        Link::Connected => eprint!(rt; "| {} connected, {kilobytes} kB behind ", row.address),
        Link::Lost => eprint!(rt; "| {} not connected, {kilobytes} kB behind ", row.address),
    };
}

/// What is seen of one origin.
#[derive(Drop)]
pub(crate) struct Seen<'a, 'b, R> {
    rt: &'a R,
    board: &'a Board<'b, R>,
    number: usize,
}

impl<'a, 'b, R> Seen<'a, 'b, R> {
    /// Returns what is seen of the origin `number`.
    pub(crate) fn new(rt: &'a R, board: &'a Board<'b, R>, number: usize) -> Seen<'a, 'b, R> {
        Seen { rt, board, number }
    }
}

impl<R: Eprint + Clock + Wait> Watch for Seen<'_, '_, R> {
    fn stands(&mut self, _standing: &Standing) {
        let mut shown = self.board.0.lock(self.rt);
        if let Some(row) = shown.rows.get_mut(self.number) {
            row.link = Link::Connected;
        }
    }

    fn not_kept(&mut self) {
        let mut shown = self.board.0.lock(self.rt);
        let Rows { meter, rows } = &mut *shown;
        if let Some(row) = rows.get_mut(self.number)
            && !row.unkept
        {
            row.unkept = true;
            meter.end_line();
            let _ = eprintln!(self.rt;
                "llhls: {} has accepted an item that it can't keep on disk: NotKept",
                row.address
            );
        }
    }

    fn accepted(&mut self, _said: Said, _bytes: usize) {}

    fn lost(&mut self) {
        let mut shown = self.board.0.lock(self.rt);
        let Rows { meter, rows } = &mut *shown;
        if let Some(row) = rows.get_mut(self.number) {
            row.link = Link::Lost;
            meter.end_line();
            let _ = eprintln!(self.rt;
                "llhls: {}: the connection is lost, and tried again",
                row.address
            );
        }
    }
}
