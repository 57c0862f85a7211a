ghost use Rattle.std.specs.Prelude.{◌≡◌, [], IfOk};
ghost use Rattle.std.specs.Result.{result_err};
ghost use Rattle.trace.specs.Dumps.{refused_number, most_bytes, DumpRead};
ghost use Rattle.trace.specs.Of.{events_of};

use crate::traces::Trace;
use clock::Refusal;
use std::alloc::{AllocError, Global};

// What a dump holds: the trace of its accepted entries, and the refusal that ended it, if one did.
#[derive(Drop)]
pub struct Dump {
    pub trace: Trace,
    pub refused: Option<Refusal>,
}

impl Dump {
    // 512 entries of 4 bytes and one entry more: no byte of a dump after these matters.
    pub const MOST_BYTES: u64 = 2052;

    // Tries the bytes' entries on a new trace, until the bytes are used up or an entry is refused.
    pub fn read(heap: Global, bytes: &[u8]) -> Result<Dump, AllocError>
        ensures most { Self.MOST_BYTES ≡ most_bytes }
        ensures read { IfOk result (λ d. DumpRead bytes.now (events_of d.trace) (refused_number d.refused)) }
    {
        let mut trace = Trace::new(heap)?;
        let refused = add_all(&mut trace, bytes).err();
        Ok(Dump { trace, refused })
    }
}

// Adds the bytes' entries to a new trace, until the bytes are used up or an entry is refused.
fn add_all(trace: &mut Trace, bytes: &[u8]) -> Result<(), Refusal>
    requires { events_of trace.old ≡ [] }
    ensures { DumpRead bytes.now (events_of trace.new) (refused_number (result_err result)) }
{
    let mut rest = bytes;
    while !rest.is_empty() {
        let added = trace.add(rest)?;
        rest = &rest[added.used..];
    }
    Ok(())
}
