//! The status words of wait(2), each of 16 bits.

use signals::Signal;
use std::alloc::Global;
use test_kit::{TestError, expect};
use wait4::{Status, StatusKind};

pub fn check(rt: &impl Print, alloc: Global) -> Result<(), TestError> {
    each_word_is_its_status(alloc)?;
    println!(rt; "status words: 1 check passed")?;
    Ok(())
}

/// Returns the status of each word, from the words of all statuses.
fn statuses_by_word(alloc: Global) -> Result<Vec<Option<StatusKind>>, TestError> {
    let mut kinds = vec![in alloc; None; 65_536]?;
    for code in 0..=255u8 {
        write(&mut kinds, code as usize * 256, StatusKind::Exited(code));
    }
    for number in 1..=31u32 {
        let signal = Signal::new(number)?;
        write(
            &mut kinds,
            number as usize * 256 + 127,
            StatusKind::Stopped(signal),
        );
        write(&mut kinds, number as usize, StatusKind::Signaled(signal));
    }
    write(&mut kinds, 19, StatusKind::Continued);
    Ok(kinds)
}

fn write(kinds: &mut Vec<Option<StatusKind>>, place: usize, kind: StatusKind) {
    if let Some(it) = kinds.get_mut(place) {
        *it = Some(kind);
    }
}

/// Returns the kind of the status of this word, if its word is this one.
fn kind_of(word: u32) -> Option<StatusKind> {
    let status = Status::of_word(word)?;
    (status.word() == word).then_some(status.kind())
}

fn each_word_is_its_status(alloc: Global) -> Result<(), TestError> {
    let kinds = statuses_by_word(alloc)?;
    let is_whole = kinds.iter().flatten().count() == 318;
    expect(is_whole, "there are more or fewer statuses")?;
    for word in 0..65_536u32 {
        let kind = kinds.get(word as usize).copied().flatten();
        expect(kind_of(word) == kind, "a word has another status")?;
    }
    Ok(())
}
