ghost use Rattle.std.specs.Prelude.{◌<◌, length};

use rig_io::{MemSink, MemSource, Placed, Sink, Source, Took};
use std::test::Fail;

fn take_from<S: Source>(source: &mut S, buffer: &mut [u8]) -> Took
    requires { 0 < length buffer.old }
{
    source.take(buffer)
}

fn put_into<K: Sink>(sink: &mut K, piece: &[u8]) -> Placed
    requires { 0 < length piece.now }
{
    sink.put(piece)
}

#[test]
fn a_source_fails_at_listed_calls(rt: HostRuntime) -> Result<(), Fail> {
    let bytes = vec![in rt.alloc(); 1u8, 2, 3, 4, 5]?;
    let failing = vec![in rt.alloc(); 3u64, 0, 3]?;
    let mut source = MemSource::new(bytes, failing);
    let wanted = [
        (Took::Failed, [0, 0]),
        (Took::Got(2), [1, 2]),
        (Took::Got(2), [3, 4]),
        (Took::Failed, [0, 0]),
        (Took::Got(1), [5, 0]),
        (Took::End, [0, 0]),
        (Took::End, [0, 0]),
    ];
    for (took, given) in wanted {
        let mut buffer = [0u8; 2];
        assert!(rt; take_from(&mut source, &mut buffer) == took);
        assert!(rt; buffer == given);
    }
    Ok(())
}

#[test]
fn a_sink_fails_at_listed_calls(rt: HostRuntime) -> Result<(), Fail> {
    let failing = vec![in rt.alloc(); 2u64, 1, 2]?;
    let mut sink = MemSink::new(rt.alloc(), failing);
    let wanted = [
        Placed::Put(3),
        Placed::Failed,
        Placed::Failed,
        Placed::Put(3),
    ];
    for placed in wanted {
        assert!(rt; put_into(&mut sink, b"abc") == placed);
    }
    assert!(rt; sink.bytes() == b"abcabc".as_slice());
    assert!(rt; sink.refused() == 0);
    Ok(())
}
