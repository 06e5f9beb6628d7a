//! Laws of a machine of all users and of one machine for each user.

ghost use Rattle.user_hosts.specs.Laws.{ManyAreOne, UnusedShows, CopyShows};

/// A machine of all users answers every list of all users' steps as machines of one view do, one for each user. It shows
/// each user the same afterwards.
pub fn many_are_one()
    ensures { ManyAreOne }
{}

/// Unused hosts show each user what an unused machine shows.
pub fn unused_hosts_show_an_unused_machine()
    ensures { UnusedShows }
{}

/// Hosts with a copy of one user's host show this user what the source shows, and all others what they saw.
pub fn a_copy_is_of_one_user()
    ensures { CopyShows }
{}
