//! Laws of the tracing machine without a host and without limits of memory: the isolation of users over rows and lists
//! of steps.

ghost use Rattle.visibility.specs.WorkedRuns.{ForkIsFollowed};
ghost use Rattle.visibility.specs.ForeignLists.{ForeignNumbers, SameIsAlike, SeenByView};
ghost use Rattle.requests.specs.Isolation.{Alone, OneStep, OtherStep, OwnRun, TwoLists, KeepsApart, ForeignNumber, ApartInAView, ApartAtFirst, OwnList, ApartInASoundHost, RunsArePrivate, TwoRuns};

/// A run checked by computation: a debugger follows a fork.
pub fn a_followed_fork()
    ensures { ForkIsFollowed }
{}

/// A step gives its user the reply and the view that it gives in a host in which no other user has made a step.
#[tactic(auto, using(requests::proofs::IsolationLaws::alone_law))]
pub fn alone()
    ensures { Alone }
{}

/// One step in two hosts that show its user the same: the reply is the same, and so is the view afterwards.
#[tactic(auto, using(requests::proofs::IsolationLaws::one_step))]
pub fn one_step()
    ensures { OneStep }
{}

/// A step of another user doesn't change what a user sees, whatever its reply.
#[tactic(auto, using(requests::proofs::IsolationLaws::other_step))]
pub fn other_step()
    ensures { OtherStep }
{}

/// A list of all users' steps gives each user the replies and the view that the machine gives on only that user's view
/// and steps.
pub fn own_run()
    ensures { OwnRun }
{}

/// Two lists with the same steps of a user, from hosts that show the user the same, give that user the same replies
/// and the same view.
pub fn two_lists()
    ensures { TwoLists }
{}

/// In a list of all users' steps each user's replies and view are those of the user's own steps in a host in which no
/// other user has made a step.
pub fn own_list()
    ensures { OwnList }
{}

/// Numbers that a user doesn't see are interchangeable as caller, target, `which` or LWP: the reply and the host are
/// the same.
#[tactic(auto, using(crate::proofs::Foreign::foreign_number))]
pub fn foreign_number()
    ensures { ForeignNumber }
{}

/// Two lists of all users' steps, from hosts that show a user the same. The user's own steps differ only in numbers
/// that the user doesn't see at the places where they are used. Then the user's replies are the same, and so is the
/// user's view afterwards.
/// Equal lists of steps differ in no number, so this contains `two_lists`.
pub fn foreign_numbers()
    ensures numbers { ForeignNumbers }
    ensures same { SameIsAlike }
{}

/// Which processes and LWPs a number names for a user depends only on what the user sees: a number that the user doesn't
/// see in a host is one that the user doesn't see in the host without the others.
pub fn seen_by_view()
    ensures { SeenByView }
{}

/// Each step keeps users separate.
pub fn keeps_apart()
    ensures { KeepsApart }
{}

/// In a sound host users are separate.
pub fn users_are_apart_in_a_sound_host()
    ensures { ApartInASoundHost }
{}

/// In the host with one user's view, in which no other user has made a step, users are separate and that user sees the
/// same.
pub fn users_are_apart_in_a_view()
    ensures { ApartInAView }
{}

/// In an unused host users are separate.
pub fn users_are_apart_at_first()
    ensures { ApartAtFirst }
{}

/// Apart from steps that ran out of memory, each user's replies and view are those of the user's own steps in a host
/// in which no other user has made a step.
pub fn runs_are_private()
    ensures { RunsArePrivate }
{}

/// Two runs with the same answered steps of a user, from hosts that show the user the same, give that user the same
/// replies and the same view.
pub fn two_runs()
    ensures { TwoRuns }
{}
