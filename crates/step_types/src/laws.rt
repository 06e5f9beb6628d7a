//! A law of statuses and their words, proved without code.

ghost use Rattle.step_types.specs.Status.{WordsDiffer};

/// No two statuses have the same word.
pub fn words_differ()
    ensures { WordsDiffer }
{}
