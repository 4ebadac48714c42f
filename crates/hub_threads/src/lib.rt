//! The threads and message queues that all engines share, over atoms that are counted (SWI-Prolog manual, section
//! 'Multithreaded applications').
//!
//! Each visit that concerns them is a row of its own: it decides what the state answers, changes what is held, and counts
//! the atoms of each message, goal and status as it is stored, and no longer as it is handed out or dropped. The step on
//! the history is made by the caller.
#![tactic(auto)]

mod beginning;
mod commanding;
mod destroying;
mod ending;
mod finding;
mod forgetting;
mod goals;
mod held;
mod joining;
mod laws;
mod messages;
mod names;
mod queues;
mod refusing;
mod starting;
mod statuses;
mod taking;

pub use beginning::create_thread;
pub use commanding::start_goal;
pub use destroying::destroy_queue;
pub use ending::end_thread;
pub use goals::take_goal;
pub use held::{
    Name, QueueFault, Queues, Status, changes_are_kept, messages_unify_as_terms,
    numbers_stay_below, requests_are_served, terms_are_kept,
};
pub use joining::join_thread;
pub use laws::{database_updates_leave_them, open_queues, readings_leave_them};
pub use messages::send_message;
pub use names::own_name;
pub use queues::create_queue;
pub use taking::{get_message, peek_message};
