use crate::chunked_source::ChunkedSource;
use message_run::{Handled, MessageHandler, run, write_all};
use rig_io::{MemSink, MemSource};
use std::alloc::Global;
use std::test::Fail;

/// A server that answers each message with its bytes, ends the stream with 9 at the message `[9]`, and can't read `[8]` at place 2.
#[derive(Drop)]
struct Echo {
    has_left: bool,
}

impl MessageHandler for Echo {
    ghost use Rattle.std.specs.Prelude.{◌≡◌, true};
    ghost use Rattle.program_tests.specs.Echoes.{echo};

    ghost became = { λ _ _. Unit {0} };

    ghost shows = { λ _ f. f ≡ echo };

    ghost stands = { λ _ f _. f ≡ echo };

    ghost left = { λ s f done. s.has_left ≡ true };

    fn handle(&mut self, message: &[u8], out: &mut Vec<u8>) -> Handled {
        if message == b"\x08".as_slice() {
            return Handled::Unreadable(2);
        }
        if out.extend_from_slice(message).is_err() {
            return Handled::NoMemory;
        }
        if message == b"\x09".as_slice() {
            Handled::Ends(9)
        } else {
            Handled::Continue
        }
    }

    fn leave(&mut self) {
        self.has_left = true;
    }
}

// Whether a run over these bytes, which fails at these reads and writes, answers this status and this output, and whether the
// server has left where the status tells what the input comes to.
fn comes_to(
    alloc: Global,
    input: &[u8],
    reads_failing: &[u64],
    writes_failing: &[u64],
    status: u8,
    wanted: &[u8],
) -> Result<bool, Fail> {
    let bytes = Vec::from_slice(alloc, input)?;
    let mut source = MemSource::new(bytes, Vec::from_slice(alloc, reads_failing)?);
    let mut sink = MemSink::new(alloc, Vec::from_slice(alloc, writes_failing)?);
    let mut server = Echo { has_left: false };
    let answered = run(alloc, &mut server, &mut source, &mut sink);
    let told = status == 0 || status == 3 || status == 7;
    Ok(answered == status && sink.bytes() == wanted && (server.has_left || !told))
}

#[test]
fn each_end_has_its_status_and_last_item(rt: HostRuntime) -> Result<(), Fail> {
    let cases: [(&[u8], u8, &[u8]); 7] = [
        (b"", 0, b""),
        (b"\0\0\0\0\x02ab\0\0\0\0\x01c", 0, b"abc"),
        (b"\0\0\0\0\0", 0, b""),
        // nothing behind a reply that ends the stream is done
        (
            b"\0\0\0\0\x02ab\0\0\0\0\x01\x09\0\0\0\0\x01c",
            7,
            b"ab\x09\x80\0\0\0\x019",
        ),
        (
            b"\0\0\0\0\x02ab\0\0\0\0\x01\x08\0\0\0\0\x01c",
            3,
            b"ab\x81\0\0\0\x0214",
        ),
        // a message that is longer than a server takes, and a flag byte of 1
        (b"\0\0\0\0\x02ab\0\0\x40\0\x01", 3, b"ab\x81\0\0\0\x017"),
        (b"\x01", 3, b"\x81\0\0\0\x010"),
    ];
    for (input, status, wanted) in cases {
        assert!(rt; comes_to(rt.alloc(), input, &[], &[], status, wanted)?);
    }
    Ok(())
}

#[test]
fn an_input_may_be_cut_at_any_byte(rt: HostRuntime) -> Result<(), Fail> {
    let input = b"\0\0\0\0\x02ab\0\0\0\0\x01c".as_slice();
    for size in 0..14 {
        let (front, _) = input.split_at(size);
        let (status, wanted) = match size {
            0 => (0, b"".as_slice()),
            1..=6 => (3, b"\x81\0\0\0\x010".as_slice()),
            7 => (0, b"ab".as_slice()),
            8..=12 => (3, b"ab\x81\0\0\0\x017".as_slice()),
            _ => (0, b"abc".as_slice()),
        };
        assert!(rt; comes_to(rt.alloc(), front, &[], &[], status, wanted)?);
    }
    Ok(())
}

#[test]
fn failures_have_their_status(rt: HostRuntime) -> Result<(), Fail> {
    let whole = b"\0\0\0\0\x02ab".as_slice();
    let ended = b"\0\0\0\0\x02ab\0\0\0\0\x01\x09".as_slice();
    let cut = b"\0\0\0\0\x02ab\0".as_slice();
    let cases: [(&[u8], &[u64], &[u64], u8, &[u8]); 6] = [
        (whole, &[0], &[], 4, b""),
        (whole, &[1], &[], 4, b"ab"),
        (whole, &[], &[0], 5, b""),
        (ended, &[], &[0], 5, b""),
        (ended, &[], &[1], 5, b"ab\x09"),
        (cut, &[], &[1], 5, b"ab"),
    ];
    for (input, reads_failing, writes_failing, status, wanted) in cases {
        assert!(rt;
            comes_to(
                rt.alloc(),
                input,
                reads_failing,
                writes_failing,
                status,
                wanted
            )?
        );
    }
    Ok(())
}

#[test]
fn any_pieces_come_to_the_same(rt: HostRuntime) -> Result<(), Fail> {
    let input = b"\0\0\0\0\x02ab\0\0\0\0\x01\x08c".as_slice();
    for size in 1..15 {
        let mut pieces = ChunkedSource { rest: input, size };
        let mut sink = MemSink::new(rt.alloc(), Vec::new(rt.alloc()));
        let mut server = Echo { has_left: false };
        assert_eq!(rt; run(rt.alloc(), &mut server, &mut pieces, &mut sink), 3);
        assert_eq!(rt; sink.bytes(), b"ab\x81\0\0\0\x0214".as_slice());
        assert!(rt; server.has_left);
    }
    Ok(())
}

#[test]
fn a_piece_is_put_whole(rt: HostRuntime) -> Result<(), Fail> {
    let mut sink = MemSink::new(rt.alloc(), vec![in rt.alloc(); 1u64]?);
    assert!(rt; write_all(&mut sink, b"abc"));
    assert!(rt; !write_all(&mut sink, b"d"));
    assert!(rt; write_all(&mut sink, b""));
    assert_eq!(rt; sink.bytes(), b"abc".as_slice());
    Ok(())
}
