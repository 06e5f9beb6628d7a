//! A host for each user: a user's step reads and changes only that user's host.
//!
//! `UserHosts` has up to 64 hosts of `requests`. A user's host is made at the user's first spawn: before it every other
//! step is refused with ESRCH, since the user has no process.
//!
//! Contracts see `UserHosts` as they see one `Host` of all users: `UserHosts::step` has the same clause. The machine in it
//! is that of all steps that these hosts made, a list without bytes or instructions (`made`). An invariant says that each host shows its
//! user what this machine shows (`Kept`, specs/Made). `own_hosts` has the hosts without it. `laws` says of whole lists of
//! steps that one machine and many answer alike, without hosts and without memory.
//!
//! It is above `visibility`, whose laws of one machine of all users it rests on.
#![tactic(auto)]

mod hosts;
pub mod laws;
mod made;
mod own_hosts;

pub use hosts::{CopyRefusal, UserHosts};
