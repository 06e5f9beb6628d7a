//! From a reader's bytes to a scenario.
ghost use Rattle.std.specs.Prelude.{◌≡◌, ◌+◌, ◌⊎◌, IfOk, IfErr, IfSome};
ghost use Rattle.scenario_text.specs.declared.fault.Fault.TheVariants.{Memory, Read as ReadFault};
ghost use Rattle.scenario_text.specs.Scenarios.{IsFront, StandsFor, Tells, Takes, max_bytes};

use crate::fault::Fault;
use crate::parsing::{MAX_BYTES, parse};
use crate::plan::Scenario;
use crate::retrying::read_some;
use std::alloc::Global;
use std::io::Read;

/// Reads the bytes of a reader to their end, but no more than one byte beyond `MAX_BYTES`.
fn front_of<R: Read>(alloc: Global, reader: &mut R) -> Result<Vec<u8>, Fault>
    ensures front { IfOk result (λ v. IfSome (R.remaining reader.old) (IsFront v.items)) }
    ensures takes { Takes (R.remaining reader.old) (R.remaining reader.new) (max_bytes + 1) }
    ensures err { IfErr result (λ e. (e ≡ Memory) ⊎ (e ≡ ReadFault)) }
{
    let mut bytes = Vec::new(alloc);
    let mut chunk = [0u8; 2048];
    'chunks: while bytes.len() <= MAX_BYTES {
        let room = chunk.len().min(MAX_BYTES + 1 - bytes.len());
        let part = &mut chunk[..room];
        let Ok(n) = read_some(reader, part) else {
            return Err(Fault::Read);
        };
        if n == 0 {
            return Ok(bytes);
        }
        bytes.extend_from_slice(&part[..n])?;
    }
    Ok(bytes)
}

/// Returns the scenario of a reader's bytes. It takes no more than one byte beyond `MAX_BYTES` from the reader.
///
/// # Errors
///
/// `Read` if the reader failed, else those of `parse`.
#[tactic(auto, using(crate::proofs::Answering::stands))]
pub fn read<R: Read>(alloc: Global, reader: &mut R) -> Result<Scenario, Fault>
    ensures stands { IfSome (R.remaining reader.old) (λ input. Tells result (StandsFor input)) }
    ensures takes { Takes (R.remaining reader.old) (R.remaining reader.new) (max_bytes + 1) }
{
    let bytes = front_of(alloc, reader)?;
    parse(alloc, bytes.as_slice())
}
