ghost use Rattle.std.specs.Prelude.{◌≡◌};
ghost use Rattle.lwpinfo.specs.Info.{lwp_info};

use crate::{Event, LwpInfo};
use event_masks::StopFlags;
use lwp_table::LwpData;

/// Returns what PT_LWPINFO of ptrace(2) shows of an LWP, which reports its process's stop or doesn't.
pub fn lwp_info(reports: bool, lwp: &LwpData) -> LwpInfo
    ensures { result ≡ lwp_info reports lwp.now }
{
    LwpInfo {
        tid: lwp.tid,
        event: if reports {
            Event::Signal
        } else {
            Event::Nothing
        },
        flags: if reports { lwp.flags } else { StopFlags(0) },
        sigmask: lwp.blocked,
        siglist: lwp.pending,
        child: if reports { lwp.child } else { 0 },
        code: if reports { lwp.code } else { 0 },
    }
}
