ghost use Rattle.std.specs.Prelude.{[], ◌∷◌};

use proto::{Noted, Trace};
use std::mem::size_of;
use std::test::Fail;

struct Word;

impl Noted<u64> for Word {
    ghost noted = { λ _. 4 ∷ [] };
}

#[test]
fn a_trace_takes_no_memory(rt: HostRuntime) -> Result<(), Fail> {
    assert_eq!(rt; size_of::<Trace<u64>>(), 0);
    assert_eq!(rt; size_of::<Trace<(u64, Trace<u8>)>>(), 0);
    let mut bytes = Trace::new();
    bytes.note(b"get a\r\n");
    let mut lengths: Trace<u64> = Trace::new();
    lengths.note_as(&Word);
    Ok(())
}
