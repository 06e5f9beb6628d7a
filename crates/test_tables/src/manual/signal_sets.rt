//! Signals, sets of them, and dispositions.

use signals::{Action, Disposition, Dispositions, Pass, SigSet, Signal, default_action};
use std::io;

/// Returns the word for a signal's default action.
fn word(action: Action) -> &'static str {
    match action {
        Action::End => "ends",
        Action::Stop => "stops",
        Action::Discard => "is discarded",
    }
}

/// Returns the number of the signal with this name, or 0.
fn named(name: &str) -> u32 {
    Signal::by_name(name).map_or(0, |signal| signal.number())
}

/// Prints each signal's name, the number that the name finds, and its default action, as in signal(3).
pub fn table(rt: &impl Print) -> io::Result<()> {
    for number in 0..33 {
        match Signal::new(number) {
            Ok(signal) => {
                let name = signal.name();
                let action = word(default_action(signal));
                println!(rt; "signal {number} {name} {} {action}", named(name))?;
            }
            Err(fault) => println!(rt; "signal {number}: {fault}")?,
        }
    }
    println!(rt; "no signal's name: {} {}", named("SIGUSR"), named(""))
}

/// Returns the signal with this number, or SIGKILL.
fn signal(number: u32) -> Signal {
    Signal::new(number).unwrap_or(Signal::KILL)
}

/// Returns the set of SIGHUP, SIGKILL and SIGUSR2.
fn three() -> SigSet {
    let kill = SigSet::of(Signal::KILL);
    kill.with(signal(31)).with(signal(1))
}

/// Prints sets as the numbers of their signals. A set has bit n - 1 for signal n.
pub fn sets(rt: &impl Print) -> io::Result<()> {
    let set = three();
    for set in [
        set,
        set.maskable(),
        set.without(signal(1)),
        SigSet::stops(),
        SigSet::empty(),
    ] {
        let lowest = set.lowest().map_or(0, |signal| signal.number());
        println!(rt; "set {:#x}: {set}, lowest {lowest}", set.bits())?;
    }
    Ok(())
}

/// Prints the dispositions of the signals, before an exec and after it.
fn told(rt: &impl Print, dispositions: &Dispositions) -> io::Result<()> {
    let after = dispositions.after_exec();
    for number in [9, 15, 17, 30] {
        let before = dispositions.get(signal(number));
        let later = after.get(signal(number));
        let ends = after.ends(signal(number));
        println!(rt; "disposition {number}: {before:?}, after exec {later:?}, ends {ends}")?;
    }
    Ok(())
}

/// Prints that SIGKILL and SIGSTOP keep their default.
pub fn dispositions(rt: &impl Print) -> io::Result<()> {
    let mut dispositions = Dispositions::standard();
    for (number, disposition) in [
        (15, Disposition::Catch),
        (30, Disposition::Ignore),
        (9, Disposition::Ignore),
        (9, Disposition::Catch),
        (9, Disposition::Default),
        (17, Disposition::Ignore),
        (17, Disposition::Catch),
        (17, Disposition::Default),
    ] {
        match dispositions.set(signal(number), disposition) {
            Ok(()) => println!(rt; "set {number} {disposition:?}")?,
            Err(fault) => println!(rt; "set {number} {disposition:?}: {fault}")?,
        }
    }
    told(rt, &dispositions)
}

/// Prints the debug form of signals: their names.
pub fn shown(rt: &impl Print) -> io::Result<()> {
    for number in [0, 1, 11, 31, 32] {
        println!(rt;
            "signal {number}: {:?} {:?}",
            Signal::new(number),
            Pass::new(number)
        )?;
    }
    let one = SigSet::of(Signal::KILL);
    println!(rt; "sets {one:?} {:?} {:?}", three(), SigSet::empty())
}
