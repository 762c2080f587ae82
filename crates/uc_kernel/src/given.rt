//! What a kernel is opened with, what it hands out, and what is brought back to it.

use uc_entry::list::List;
use uc_entry::request::Answer;
use uc_tree::site::Site;

/// What a kernel is to know of a program: its accept statements by their numbers.
#[derive(Drop)]
pub struct Shape {
    pub sites: Vec<Site>,
}

/// A task that goes on: its processor, its value, the members of the objects that it is inside in the order in which it
/// entered them, what its last request is answered, and the ticks that it has left.
#[derive(Drop)]
pub struct Given<T, M> {
    pub processor: u32,
    pub task: T,
    pub members: List<(u64, M)>,
    pub answer: Answer,
    pub left: u32,
}

/// A task that asks: its processor, its value, its members as they were handed out, with those of an object that it has made
/// since, and the ticks that it made. With a spawn comes the value of the new task. What it asks in which line is lent beside it.
#[derive(Drop)]
pub struct Back<T, M> {
    pub processor: u32,
    pub task: T,
    pub members: List<(u64, M)>,
    pub child: Option<T>,
    pub ticks: u32,
}

/// What comes next on a processor: its task goes on, or has left it, or the run is over.
#[derive(Drop)]
pub enum Next<T, M> {
    Go(Given<T, M>),
    Blocked,
    Ended,
}
