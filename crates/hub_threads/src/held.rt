//! Threads and their message queues as they are held (SWI-Prolog manual, section 'Multithreaded applications'), with
//! messages of any type.
mod aliases;
mod fault;
mod queue;
mod queues;
mod searches;
mod serving;
mod weights;

pub use fault::QueueFault;
pub use pl_model::threads::{Name, Status};
pub use queues::Queues;
pub use serving::{changes_are_kept, messages_unify_as_terms, requests_are_served};
pub use weights::{numbers_stay_below, terms_are_kept};
