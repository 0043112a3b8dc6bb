//! Asks several origins where a rendition stands, and settles where it is published from.
use crate::origins::Stopped;
use ll_announce::Standing;
use ll_pair::furthest;
use ll_push::PushFault;
use std::sync::{Condvar, Mutex, Wait};
use std::time::{Clock, Duration};

/// How long an answer is waited for once another origin has given one, in seconds.
const PATIENCE: u64 = 5;

/// What several origins have answered so far.
#[derive(Drop)]
struct Answers {
    /// Where the rendition stands, by those who said it, in the order of their addresses.
    standings: Vec<Option<Standing>>,
    /// The number of origins that haven't answered, or failed.
    open: usize,
    /// Why the last one that failed did.
    fault: Option<Stopped>,
    /// Whether it is settled where the rendition is published from.
    settled: bool,
    /// Where from, if that is settled; none if nobody said where the rendition stands.
    from: Option<Standing>,
}

impl Answers {
    /// Returns whether nobody has said where the rendition stands, though some may still do so.
    fn is_silent(&self) -> bool {
        self.open > 0 && furthest(&self.standings).is_none()
    }
}

/// Where a rendition is published from, which one thread settles by the answers of many.
#[derive(Drop)]
pub(crate) struct Survey {
    answers: Mutex<Answers>,
    changed: Condvar,
}

impl Survey {
    /// Returns a survey of as many origins as there are `standings`, all of which are none.
    pub(crate) fn new(standings: Vec<Option<Standing>>) -> Survey {
        let open = standings.len();
        let answers = Answers {
            standings,
            open,
            fault: None,
            settled: false,
            from: None,
        };
        Survey {
            answers: Mutex::new(answers),
            changed: Condvar::new(),
        }
    }

    /// Takes the answer of the origin `number`.
    pub(crate) fn answer<R: Wait>(&self, rt: &R, number: usize, told: Result<Standing, Stopped>) {
        let mut answers = self.answers.lock(rt);
        answers.open = answers.open.saturating_sub(1);
        match told {
            Ok(standing) => {
                if let Some(place) = answers.standings.get_mut(number) {
                    *place = Some(standing);
                }
            }
            Err(fault) => answers.fault = Some(fault),
        }
        drop(answers);
        self.changed.notify_all();
    }

    /// Waits for the answers, for 5 seconds and then for the first one, and settles on the one that is furthest on. If there is none, returns
    /// why the last origin that failed did.
    pub(crate) fn settle<R: Wait + Clock>(&self, rt: &R) -> Result<Standing, Stopped> {
        let answers = self.answers.lock(rt);
        let patience = Duration::from_secs(PATIENCE);
        let (answers, _) = self
            .changed
            .wait_timeout_while(rt, answers, patience, |answers| answers.open > 0);
        let mut answers = self
            .changed
            .wait_while(rt, answers, |answers| answers.is_silent());
        answers.settled = true;
        answers.from = furthest(&answers.standings);
        let from = answers.from;
        let fault = answers.fault.take();
        drop(answers);
        self.changed.notify_all();
        match from {
            Some(standing) => Ok(standing),
            None => Err(fault.unwrap_or(Stopped::Fault(PushFault::Connect))),
        }
    }

    /// Waits until it is settled where the rendition is published from, and returns that.
    pub(crate) fn settled<R: Wait>(&self, rt: &R) -> Option<Standing> {
        let answers = self.answers.lock(rt);
        let answers = self
            .changed
            .wait_while(rt, answers, |answers| !answers.settled);
        answers.from
    }
}
