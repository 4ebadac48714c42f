//! Engines: the slices in which a goal is run, a step of resolution at a time (ISO/IEC 13211-1:1995, 7.7 and 7.8).
#![tactic(auto)]

pub mod answering;
pub mod builtin;
pub mod call;
pub mod dispatch;
pub mod doing;
pub mod engine;
pub mod equal;
pub mod erasing;
pub mod fail;
pub mod findall;
pub mod following;
pub mod kinds;
pub mod lines;
pub mod live;
pub mod looking;
pub mod passed;
pub mod procedure;
pub mod quick;
pub mod refused;
pub mod retry;
pub mod row;
pub mod rows;
pub mod run;
pub mod running;
pub mod slice;
pub mod slices;
pub mod solving;
pub mod starting;
pub mod state;
pub mod step;
pub mod throwing;
pub mod unserved;
pub mod untried;
pub mod variables;
pub mod write;
