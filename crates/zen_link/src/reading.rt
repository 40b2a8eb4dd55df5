//! A source read to its end.
ghost use Rattle.std.specs.Prelude.{◌≡◌, ◌<◌, ◌≤◌, IfOk, length};
ghost use Rattle.zen_disk.specs.Faults.{Rose};
ghost use Rattle.zen_link.specs.Reading.{IsInput, IsReadOn, ReadsAtMost};

use crate::Source;
use std::alloc::Global;

/// Why the input was not read.
#[derive(Clone, Copy, Debug, PartialEq, Eq, thiserror::Error)]
pub enum InputError {
    #[error("the input failed")]
    Read,
    #[error("memory ran out")]
    Memory,
}

// How many bytes are read at a time at most.
const CHUNK_BYTES: usize = 65536;

// Reads the next bytes by way of a buffer, at most `wanted`, and says how many. None are left where there is none.
fn read_chunk<S: Source>(
    input: &mut S,
    chunk: &mut [u8],
    bytes: &mut Vec<u8>,
    wanted: usize,
) -> Result<usize, InputError>
    requires some { 0 < wanted }
    requires few { wanted ≤ length chunk.old }
    ensures read { IfOk result (λ count. IsReadOn (S.left input.old) (S.left input.new) bytes.old.items bytes.new.items count) }
    ensures within { IfOk result (λ count. count ≤ wanted) }
    ensures at_most { ReadsAtMost wanted (S.left input.old) (S.left input.new) }
    ensures later { S.faults input.old ≤ S.faults input.new }
    ensures fault { result ≡ Err InputError.Read → Rose (S.faults input.old) (S.faults input.new) }
{
    let into = &mut chunk[..wanted];
    let Ok(count) = input.read(into) else {
        return Err(InputError::Read);
    };
    if bytes.extend_from_slice(&into[..count]).is_err() {
        return Err(InputError::Memory);
    }
    Ok(count)
}

/// Reads the input to its end, but at most this many bytes. `Read` only where the source's count of faults rose; `Memory`
/// where memory ran out.
pub fn read_input<S: Source>(
    alloc: Global,
    input: &mut S,
    most: usize,
) -> Result<Vec<u8>, InputError>
    ensures read { IfOk result (λ bytes. IsInput most (S.left input.old) (S.left input.new) bytes.items) }
    ensures at_most { ReadsAtMost most (S.left input.old) (S.left input.new) }
    ensures later { S.faults input.old ≤ S.faults input.new }
    ensures fault { result ≡ Err InputError.Read → Rose (S.faults input.old) (S.faults input.new) }
{
    let mut bytes = Vec::new(alloc);
    let mut chunk = [0; CHUNK_BYTES];
    while bytes.len() < most {
        let wanted = (most - bytes.len()).min(CHUNK_BYTES);
        let count = read_chunk(input, &mut chunk, &mut bytes, wanted)?;
        if count == 0 {
            return Ok(bytes);
        }
    }
    Ok(bytes)
}
