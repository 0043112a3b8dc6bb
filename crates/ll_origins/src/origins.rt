//! Publishes what an encoder writes at several origins, each of which is sent it by a thread of its own.
use crate::board::{Board, Seen};
use crate::connections::Connections;
use crate::survey::Survey;
use ll_announce::{Message, Names, Standing};
use ll_attr::Text;
use ll_command::{Fault, Plan};
use ll_device::{Reader, Source};
use ll_pair::{Carried, Fed, Outlets, Pair, Taker, carry, feed};
use ll_push::{Calendar, Ending, PushFault, StandingAnswer, Target, ask};
use ll_socket::{Address, Connector};
use std::alloc::{AllocError, Global};
use std::net::{Net, TcpListener, TcpStream};
use std::sync::{Mutex, Wait};
use std::thread;
use std::thread::Threads;
use std::time::{Clock, Duration};

/// What is published, and where.
#[derive(Drop)]
pub struct Job {
    /// The addresses at which the origins listen for publishers.
    pub addresses: Vec<Address>,
    /// The name of the channel.
    pub channel: Text,
    /// The name of one of its renditions.
    pub rendition: Text,
    /// How the encoder's output is published.
    pub plan: Plan,
    /// The line that is sent first on each connection, if there is one. It holds a secret.
    pub greeting: Option<Vec<u8>>,
}

impl Job {
    /// Returns the line that is sent first on each connection, if there is one.
    pub fn greeting(&self) -> Option<&[u8]> {
        match &self.greeting {
            Some(line) => Some(line),
            None => None,
        }
    }

    /// Returns the names of the channel and the rendition.
    pub fn names(&self) -> Names<'_> {
        Names {
            channel: self.channel.as_str(),
            rendition: self.rendition.as_str(),
        }
    }
}

/// Why an origin gets no more.
#[derive(Drop)]
pub(crate) enum Stopped {
    /// It refused what was sent, with this line.
    Refused(Text),
    Fault(PushFault),
}

/// What the threads of the origins share.
#[derive(Drop)]
struct Origins<'a, R> {
    rt: &'a R,
    alloc: Global,
    job: &'a Job,
    survey: Survey,
    pair: Pair,
    board: Board<'a, R>,
    /// Why the origin that was left last gets no more.
    last: Mutex<Option<Stopped>>,
}

/// Publishes what an encoder writes, which is read from `source`, at the origins of `job`, of which there are two or more. `shown` says
/// whether standard error is a terminal.
pub fn publish_at_all<
    C: Calendar,
    I: Reader,
    R: Net<Listener = TcpListener, Stream = TcpStream> + Eprint + Clock + Threads + Wait + Sync,
>(
    rt: &R,
    alloc: Global,
    job: &Job,
    source: &mut I,
    clock: &mut C,
    shown: bool,
) -> Result<Ending, Fault> {
    let origins = Origins {
        rt,
        alloc,
        job,
        survey: Survey::new(silent(alloc, job)?),
        pair: Pair::new(alloc, job.addresses.len(), keep_of(job))?,
        board: Board::new(rt, alloc, &job.addresses, shown)?,
        last: Mutex::new(None),
    };
    let (whole, fed) = thread::join(
        rt,
        || origins.carry_all(),
        || origins.feed_all(source, clock),
    );
    origins.board.end(rt);
    match fed {
        Ok(_) if whole => Ok(Ending::Whole),
        Err(stopped) if whole => ending_of(stopped),
        Err(stopped) => ending_of(origins.last.into_inner().unwrap_or(stopped)),
        Ok(_) => match origins.last.into_inner() {
            Some(stopped) => ending_of(stopped),
            None => Err(Fault::Memory),
        },
    }
}

/// Returns for each origin of `job` that it hasn't said where the rendition stands.
fn silent(alloc: Global, job: &Job) -> Result<Vec<Option<Standing>>, Fault> {
    let mut standings = Vec::new(alloc);
    for _ in &job.addresses {
        if standings.push(None).is_err() {
            return Err(Fault::Memory);
        }
    }
    Ok(standings)
}

/// Returns the most bytes that wait for an origin of `job`.
fn keep_of(job: &Job) -> usize {
    usize::try_from(job.plan.keep).unwrap_or(usize::MAX)
}

/// Returns how publishing ends because of `stopped`.
fn ending_of(stopped: Stopped) -> Result<Ending, Fault> {
    match stopped {
        Stopped::Refused(line) => Ok(Ending::Refused(line)),
        Stopped::Fault(fault) => Err(Fault::Push(fault)),
    }
}

impl<
    R: Net<Listener = TcpListener, Stream = TcpStream> + Eprint + Clock + Threads + Wait + Sync,
> Origins<'_, R> {
    /// Brings each origin the messages that come for it, each in a thread of its own. Returns whether one of them has accepted everything.
    fn carry_all(&self) -> bool {
        let count = self.job.addresses.len();
        match thread::map_indices(self.rt, self.alloc, count, &|number| self.carry_to(number)) {
            Ok(ends) => ends.iter().any(|whole| *whole),
            Err(AllocError) => false,
        }
    }

    /// Brings the origin `number` the messages that come for it. Returns whether it has accepted everything.
    fn carry_to(&self, number: usize) -> bool {
        let Some(address) = self.job.addresses.get(number) else {
            return false;
        };
        self.survey.answer(self.rt, number, self.told_at(address));
        let Some(standing) = self.survey.settled(self.rt) else {
            return false;
        };
        let retry = self.job.plan.retry;
        let done = carry(
            self.alloc,
            &self.job.names(),
            standing.place,
            retry.saturating_mul(2),
            &mut Taker::new(self.rt, &self.pair, number),
            &mut Connections::new(self.rt, &self.pair, number, address, self.job),
            &mut Seen::new(self.rt, &self.board, number),
        );
        match done {
            Ok(Carried::Whole) => true,
            Ok(Carried::Left) => false,
            Ok(Carried::Refused(line)) => self.leave(number, Stopped::Refused(line)),
            Err(fault) => self.leave(number, Stopped::Fault(fault)),
        }
    }

    /// Asks the origin at `address` where the rendition stands.
    fn told_at(&self, address: &Address) -> Result<Standing, Stopped> {
        let greeting = self.job.greeting();
        let Some(mut link) = Connector::new(self.rt, address, greeting, Duration::ZERO).next()
        else {
            return Err(Stopped::Fault(PushFault::Connect));
        };
        match ask(self.alloc, &self.job.names(), &mut link) {
            Ok(StandingAnswer::Standing(standing)) => Ok(standing),
            Ok(StandingAnswer::Refused(line)) => Err(Stopped::Refused(line)),
            Ok(StandingAnswer::Lost) => Err(Stopped::Fault(PushFault::Connect)),
            Err(fault) => Err(Stopped::Fault(fault)),
        }
    }

    /// Leaves the origin `number`, and says why, if it wasn't left before. Returns false.
    fn leave(&self, number: usize, stopped: Stopped) -> bool {
        let (rt, pair) = (self.rt, &self.pair);
        let is_new = match &stopped {
            Stopped::Refused(line) => self.board.leave(rt, pair, number, line.as_str()),
            Stopped::Fault(fault) => self.board.leave(rt, pair, number, *fault),
        };
        if is_new {
            *self.last.lock(rt) = Some(stopped);
        }
        false
    }

    /// Gives the origins the messages of what an encoder writes, which is read from `source`. Then no more come.
    fn feed_all<I: Reader, C: Calendar>(
        &self,
        source: &mut I,
        clock: &mut C,
    ) -> Result<Fed, Stopped> {
        let standing = self.survey.settle(self.rt)?;
        self.board.stands(self.rt, &standing);
        let target = Target {
            names: self.job.names(),
            lengths: self.job.plan.lengths,
            ends: self.job.plan.ends,
        };
        let mut given = Given { origins: self };
        let done = feed(self.alloc, &target, &standing, source, clock, &mut given);
        self.pair.end(self.rt);
        match done {
            Ok(fed) => Ok(fed),
            Err(fault) => Err(Stopped::Fault(fault)),
        }
    }
}

/// The origins to which messages are given.
#[derive(Drop)]
struct Given<'a, 'b, R> {
    origins: &'a Origins<'b, R>,
}

impl<R: Eprint + Clock + Wait> Outlets for Given<'_, '_, R> {
    ghost use Rattle.std.specs.Prelude.{None};

    ghost given = { λ g. None };

    fn give(&mut self, message: Message) -> Result<bool, AllocError> {
        let Origins {
            rt,
            pair,
            board,
            ..
        } = self.origins;
        let said = message.said();
        let bytes = message.bytes().len();
        let some = pair.give(*rt, message)?;
        board.given(*rt, pair, said, bytes);
        Ok(some)
    }
}
