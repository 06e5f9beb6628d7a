//! The lines of replies that are lists of numbers.

ghost use Rattle.std.specs.Prelude.{◌≡◌, ◌≤◌, ◌*◌, ◌∷◌, [], ◌++◌, length, map, decimal, OnOk, string_bytes};
ghost use Rattle.std.specs.List.{flat_map, join_with_byte};

use arrayvec::ArrayString;
use itoa::Buffer;
use std::alloc::AllocError;

/// How many numbers are put together on the stack.
const BLOCK: usize = 32;

/// Room for as many numbers, each with a space before it.
const ROOM: usize = 352;

/// Adds the numbers, each after a space.
fn push_block(text: &mut String, numbers: &[u32]) -> Result<(), AllocError>
    requires { length numbers.now ≤ 32 }
    ensures { OnOk result (string_bytes text.new ≡ string_bytes text.old ++ flat_map (λ n. 32 ∷ decimal n) numbers.now) }
{
    let mut block: ArrayString<ROOM> = ArrayString::new();
    let mut digits = Buffer::new();
    for number in numbers {
        block.push_str(" ");
        block.push_str(digits.format(*number));
    }
    text.push_str(block.as_str())
}

/// Adds a word and the numbers, each after a space, and ends the line.
pub(crate) fn push_list(text: &mut String, word: &str, numbers: &[u32]) -> Result<(), AllocError>
    ensures { OnOk result (string_bytes text.new
        ≡ string_bytes text.old ++ (32 ∷ join_with_byte 32 (word.now ∷ map (λ n. decimal n) numbers.now)) ++ (10 ∷ [])) }
{
    text.push_str(" ")?;
    text.push_str(word)?;
    let mut rest = numbers;
    while !rest.is_empty() {
        let (block, behind) = rest.split_at(rest.len().min(BLOCK));
        push_block(text, block)?;
        rest = behind;
    }
    text.push_str("\n")
}
