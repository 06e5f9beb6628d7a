//! Equality of views.

ghost use Rattle.std.specs.Prelude.{◌≡◌, ◌↔◌, IsTrue};
ghost use Rattle.std.specs.Cmp.{partial_equiv_from_equiv};
ghost use Rattle.std.specs.Cmp.Lexicographic.{pointwise};
ghost use Rattle.visibility.specs.Same.{same_installed, same_view};
ghost use Rattle.visibility.specs.Equal.{views_equiv};

use crate::View;
use pid_blocks::Pid;
use stop_handlers::Policy;

/// Views are equal if all their parts are equal.
impl PartialEq for View {
    ghost eq = { same_view };

    ghost laws = { partial_equiv_from_equiv views_equiv };

    fn eq(&self, other: &View) -> bool
        ensures same { result ≡ same_view self.now other.now }
        ensures exact { IsTrue result ↔ (self.now ≡ other.now) }
    {
        self.processes.as_slice() == other.processes.as_slice()
            && self.lwps.as_slice() == other.lwps.as_slice()
            && self.pid_cursor == other.pid_cursor
            && self.tid_cursor == other.tid_cursor
            && same_handlers(self, other)
            && self.settings == other.settings
    }
}

impl Eq for View {
    ghost laws = { views_equiv };
}

/// Returns whether two lists of debuggers and policies are equal.
fn same_pairs(mine: &[(Pid, Policy)], others: &[(Pid, Policy)]) -> bool
    ensures { IsTrue result ↔ (mine.now ≡ others.now) }
{
    if mine.len() != others.len() {
        return false;
    }
    for (i, pair) in mine.iter().enumerate() {
        if pair.0 != others[i].0 || !pair.1.is_same(&others[i].1) {
            return false;
        }
    }
    true
}

/// Returns whether the same debuggers have installed the same policies in the same order.
fn same_handlers(mine: &View, other: &View) -> bool
    ensures { result ≡ pointwise same_installed mine.now.installed other.now.installed }
{
    same_pairs(mine.handlers.as_slice(), other.handlers.as_slice())
}
