//! Reading a script from its JSON.
#![tactic(auto)]

mod acks;
mod built;
mod clients;
mod faults;
mod laws;
mod limits;
mod list_readers;
mod misfits;
mod nodes;
mod parts;
mod predicates;
mod queues;
mod reading;
mod refusals;
mod rules;
mod steps;
mod tasks;
mod turns;
mod works;

pub use laws::read_scripts_are_valid;
pub use limits::LimitName;
pub use reading::read_script;
pub use refusals::ScriptRefusal;
pub use rules::Rule;
