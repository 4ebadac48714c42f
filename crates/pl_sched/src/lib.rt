//! Workers: the engines at home, which are lent to one worker at a time, and the shared state behind its lock as an engine
//! that is out sees it.
#![tactic(auto)]

mod beginning;
mod ends;
mod ground;
mod home;
mod hub;
mod known;
mod ledger;
mod mark;
mod naming;
mod newcomers;
mod over;
mod records;
mod run;
mod starts;
mod statuses;
mod texts;
mod turns;
mod work;
mod world;
mod writing;

pub use ground::Terms;
pub use home::{Home, Parts, Retired};
pub use hub::{Hub, Lend};
pub use known::KnownAtoms;
pub use mark::{End, Mark};
pub use naming::Command;
pub use newcomers::{NewEngine, NewParts};
pub use over::{Done, DoneParts, Over, Ran, Unfinished};
pub use run::run_all;
pub use starts::{Goals, Starts};
pub use world::HubWorld;
pub use writing::Writes;
