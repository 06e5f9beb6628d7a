//! Prints what the crates at the bottom say of numbers, signals, events, handlers and LWPs: the tables of the manual
//! pages. The file stdout contains the expected output, which was written from the pages, and not by this program.
#![tactic(auto)]

ghost use Rattle.std.specs.Prelude.{◌≡◌};
ghost use Rattle.std.specs.Result.{result_ok};

mod manual;

use std::io;

/// Returns the value, or the error of a wrong input if there is none.
fn present<T>(value: Option<T>) -> io::Result<T>
    ensures { value ≡ result_ok result }
{
    value.ok_or(io::Error::from(io::ErrorKind::InvalidInput))
}

fn main(rt: HostRuntime) -> io::Result<()> {
    manual::print(&rt, rt.alloc())
}
