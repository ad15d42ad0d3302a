//! Deques of threads: each thread has its own, and the ends of the others to steal from.

ghost use Rattle.std.specs.Prelude.{◌<◌, ◌≡◌, IfErr};

use crossbeam_deque::{Steal, Stealer, Worker};
use lay_units::NoMemory;
use std::alloc::Global;

/// How often a thread looks round again where a steal could not be decided.
const ROUNDS: u32 = 1_048_576;

/// The tasks that were dealt to a thread, and where it may steal others.
#[derive(Drop)]
pub(crate) struct Deque<T> {
    own: Worker<T>,
    others: Vec<Stealer<T>>,
}

/// What a look at the deques of the others shows.
#[derive(Drop)]
enum Look<T> {
    Task(T),
    Again,
    Empty,
}

impl<T: Drop> Deque<T> {
    /// One with no task, and none to steal from.
    pub(crate) fn new(alloc: Global) -> Result<Deque<T>, NoMemory> {
        Ok(Deque {
            own: Worker::new_fifo(alloc, 64)?,
            others: Vec::new(alloc),
        })
    }

    /// Puts a task behind its own. It comes back where there is no room.
    pub(crate) fn push(&mut self, task: T) -> Result<(), T>
        ensures { IfErr result (λ t. t ≡ task) }
    {
        self.own.push(task)
    }

    /// Whether it has tasks of its own.
    pub(crate) fn has_tasks(&self) -> bool {
        !self.own.is_empty()
    }

    /// The next task: the first of its own, or else one that is stolen. None where no deque has one.
    pub(crate) fn next(&mut self) -> Option<T> {
        if let Some(task) = self.own.pop() {
            return Some(task);
        }
        for _round in 0..ROUNDS {
            match self.steal() {
                Look::Task(task) => return Some(task),
                Look::Again => {}
                Look::Empty => return None,
            }
        }
        None
    }

    fn steal(&self) -> Look<T> {
        let mut look = Look::Empty;
        for other in self.others.iter() {
            match other.steal() {
                Steal::Success(task) => return Look::Task(task),
                Steal::Retry => look = Look::Again,
                Steal::Empty => {}
            }
        }
        look
    }

    /// Lets each of two steal from the other.
    pub(crate) fn meet(&mut self, other: &mut Deque<T>) -> Result<(), NoMemory> {
        self.others.push(other.own.stealer()?)?;
        other.others.push(self.own.stealer()?)?;
        Ok(())
    }
}

/// Lets each of these steal from one more, and that one from each of these.
fn meet(deques: &mut Vec<Deque<usize>>, more: &mut Deque<usize>) -> Result<(), NoMemory> {
    for deque in deques.iter_mut() {
        deque.meet(more)?;
    }
    Ok(())
}

/// A deque for each of so many threads, to which so many places are dealt in turn. Beside several threads stands one more, which is idle:
/// the last one is the calling thread, which lets go what the others make, and would share their heaps if it computed.
pub(crate) fn deal(
    alloc: Global,
    threads: usize,
    places: usize,
) -> Result<Vec<Deque<usize>>, NoMemory> {
    let mut deques: Vec<Deque<usize>> = Vec::with_capacity(alloc, threads)?;
    for first in 0..threads {
        let mut deque = dealt(alloc, first, threads, places)?;
        meet(&mut deques, &mut deque)?;
        deques.push(deque)?;
    }
    if threads > 0 {
        deques.push(Deque::new(alloc)?)?;
    }
    Ok(deques)
}

/// One with each place that has this distance from the one before it.
fn dealt(alloc: Global, first: usize, step: usize, places: usize) -> Result<Deque<usize>, NoMemory>
    requires { 0 < step }
{
    let mut deque = Deque::new(alloc)?;
    for place in (first..places).step_by(step) {
        if deque.push(place).is_err() {
            return Err(NoMemory);
        }
    }
    Ok(deque)
}
