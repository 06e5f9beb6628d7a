//! Which step each line of a run answers.
use crate::asking::Selection;
use pid_blocks::Uid;
use scenario_runs::{BareStep, Scenario, USERS};
use std::alloc::{AllocError, Global};
use std::fmt;

/// The steps of a scenario in the order of a run's lines.
#[derive(Drop)]
pub(crate) struct Answered<'a> {
    steps: &'a [(Uid, BareStep)],
    /// The index of each line's step.
    order: Vec<usize>,
    /// The number of each step among its user's own, from 1.
    numbers: Vec<usize>,
}

/// A step of a scenario.
#[derive(Clone, Copy, Drop)]
pub(crate) struct StepPlace {
    /// Its index in the scenario's steps.
    pub(crate) index: usize,
    user: Uid,
    /// Its number among the user's own, from 1.
    number: usize,
}

impl fmt::Display for StepPlace {
    fn fmt<W: fmt::Write>(&self, f: &mut fmt::Formatter<W>) -> fmt::Result {
        let (index, number) = (self.index, self.number);
        let user = self.user.get();
        write!(f, "steps[{index}], step {number} of user {user}")
    }
}

/// Adds the indices of the user's steps.
fn push_steps_of(
    steps: &[(Uid, BareStep)],
    user: Uid,
    order: &mut Vec<usize>,
) -> Result<(), AllocError> {
    for (index, step) in steps.iter().enumerate() {
        if step.0 == user {
            order.push(index)?;
        }
    }
    Ok(())
}

/// Returns the index of each line's step.
fn order_of(
    alloc: Global,
    steps: &[(Uid, BareStep)],
    shown: &Selection,
) -> Result<Vec<usize>, AllocError> {
    let mut order = Vec::new(alloc);
    match shown.user {
        Some(user) => push_steps_of(steps, user, &mut order)?,
        None if shown.threads => {
            for number in 1001..1065 {
                if let Ok(user) = Uid::new(number) {
                    push_steps_of(steps, user, &mut order)?;
                }
            }
        }
        None => {
            for index in 0..steps.len() {
                order.push(index)?;
            }
        }
    }
    Ok(order)
}

/// Returns the number of each step among its user's own, from 1.
fn numbers_of(alloc: Global, steps: &[(Uid, BareStep)]) -> Result<Vec<usize>, AllocError> {
    let mut made = [0usize; USERS];
    let mut numbers = Vec::with_capacity(alloc, steps.len())?;
    for step in steps {
        let slot = step.0.slot();
        made[slot] = made[slot].saturating_add(1);
        numbers.push(made[slot])?;
    }
    Ok(numbers)
}

impl<'a> Answered<'a> {
    /// The steps of the lines that are shown. An error means out of memory.
    pub(crate) fn new(
        alloc: Global,
        scenario: &'a Scenario,
        shown: &Selection,
    ) -> Result<Answered<'a>, AllocError> {
        let steps = scenario.bare_steps();
        Ok(Answered {
            steps,
            order: order_of(alloc, steps, shown)?,
            numbers: numbers_of(alloc, steps)?,
        })
    }

    /// The step that the line with this index answers; none after the last line.
    pub(crate) fn step(&self, line: usize) -> Option<StepPlace> {
        let index = *self.order.get(line)?;
        Some(StepPlace {
            index,
            user: self.steps.get(index)?.0,
            number: *self.numbers.get(index)?,
        })
    }
}

/// How many steps the user has.
pub(crate) fn count_of(steps: &[(Uid, BareStep)], user: Uid) -> usize {
    steps.iter().filter(|step| step.0 == user).count()
}
