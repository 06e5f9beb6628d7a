//! What the crates at the bottom say of the tables of the manual pages.

mod events;
mod handlers;
mod lwps;
mod numbers;
mod signal_sets;

use std::alloc::Global;
use std::io;

/// Prints numbers and errors, signals, events and calls, handlers, and the information about LWPs.
pub fn print(rt: &impl Print, alloc: Global) -> io::Result<()> {
    numbers::errors(rt)?;
    numbers::users(rt)?;
    numbers::owners(rt)?;
    numbers::free_numbers(rt)?;
    signal_sets::table(rt)?;
    signal_sets::sets(rt)?;
    signal_sets::dispositions(rt)?;
    signal_sets::shown(rt)?;
    events::names(rt)?;
    events::calls(rt)?;
    events::printed(rt)?;
    events::shown(rt)?;
    handlers::policies(rt)?;
    handlers::limits(rt)?;
    handlers::cases(rt)?;
    handlers::closures(rt)?;
    lwps::lists(rt, alloc)?;
    lwps::told(rt)?;
    lwps::nobody(rt, alloc)
}
