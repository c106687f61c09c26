use crate::{Failure, Status, answer, read_input, refuse, refuse_at, write_full, write_piece};
use std::alloc::Global;
use std::process::Abort;
use std::test::Fail;
use str_outer::{MemSink, MemSource};

const TEXT: &[u8] = b"a text of forty bytes, in pieces of some";

/// What a failure says, and the status that it gives.
fn check_told(
    rt: &(impl Abort + AllocGlobal),
    done: Result<(), Failure>,
    status: Status,
    line: &[u8],
) -> Result<(), Fail> {
    let mut err = MemSink::new(rt.alloc(), Vec::new(rt.alloc()), 3);
    assert_eq!(rt; answer(&mut err, b"door", done), status);
    assert_eq!(rt; err.bytes(), line);
    Ok(())
}

#[test]
fn lines_of_failures(rt: HostRuntime) -> Result<(), Fail> {
    let numbered = refuse_at(rt.alloc(), b"line ", u64::MAX, b": range");
    let plain = refuse(rt.alloc(), b"more than 1048576 bytes");
    check_told(&rt, Ok(()), Status::Ok, b"")?;
    check_told(&rt, Err(Failure::Usage), Status::Usage, b"door: usage\n")?;
    check_told(
        &rt,
        Err(plain),
        Status::Refused,
        b"door: more than 1048576 bytes\n",
    )?;
    check_told(
        &rt,
        Err(numbered),
        Status::Refused,
        b"door: line 18446744073709551615: range\n",
    )?;
    check_told(
        &rt,
        Err(Failure::Read),
        Status::ReadFault,
        b"door: read fault\n",
    )?;
    check_told(
        &rt,
        Err(Failure::Write),
        Status::WriteFault,
        b"door: write fault\n",
    )?;
    check_told(
        &rt,
        Err(Failure::Memory),
        Status::NoMemory,
        b"door: out of memory\n",
    )
}

#[test]
fn codes_of_statuses(rt: HostRuntime) -> Result<(), Fail> {
    assert_eq!(rt; Status::Ok.code(), 0);
    assert_eq!(rt; Status::Usage.code(), 2);
    assert_eq!(rt; Status::Refused.code(), 3);
    assert_eq!(rt; Status::ReadFault.code(), 4);
    assert_eq!(rt; Status::WriteFault.code(), 5);
    assert_eq!(rt; Status::NoMemory.code(), 6);
    Ok(())
}

/// The status where this write of `err` fails, three bytes a write, and what `err` holds then.
fn told_until(alloc: Global, failing: u64) -> Result<(Status, Vec<u8>), Fail> {
    let mut err = MemSink::new(alloc, vec![in alloc; failing]?, 3);
    let status = answer(&mut err, b"strun", Err(Failure::Read));
    Ok((status, err.bytes().to_vec(alloc)?))
}

#[test]
fn a_refusal_of_err_is_dropped(rt: HostRuntime) -> Result<(), Fail> {
    // The name takes two writes, the colon one, the text four, and the line feed one.
    let whole = b"strun: read fault\n";
    for (failing, held) in [(1, 0), (2, 3), (3, 5), (4, 7), (5, 10), (8, 17), (9, 18)] {
        let (status, told) = told_until(rt.alloc(), failing)?;
        assert_eq!(rt; status, Status::ReadFault);
        assert!(rt; held <= whole.len());
        assert_eq!(rt; told.as_slice(), &whole[..held]);
    }
    Ok(())
}

#[test]
fn a_failed_read_is_not_the_end(rt: HostRuntime) -> Result<(), Fail> {
    // Five reads give the text, and the sixth is at its end.
    for failing in 1..=7 {
        let bytes = TEXT.to_vec(rt.alloc())?;
        let mut src = MemSource::new(bytes, vec![in rt.alloc(); failing]?, 8);
        match read_input(rt.alloc(), &mut src) {
            Ok(bytes) => {
                assert_eq!(rt; failing, 7);
                assert_eq!(rt; bytes.as_slice(), TEXT);
            }
            Err(failure) => {
                assert!(rt; failing < 7);
                assert_eq!(rt; failure.status(), Status::ReadFault);
            }
        }
    }
    Ok(())
}

#[test]
fn a_failed_write_stops(rt: HostRuntime) -> Result<(), Fail> {
    let mut out = MemSink::new(rt.alloc(), vec![in rt.alloc(); 3u64]?, 16);
    match write_piece(&mut out, TEXT) {
        Ok(()) => assert!(rt; false),
        Err(failure) => assert_eq!(rt; failure.status(), Status::WriteFault),
    }
    assert_eq!(rt; out.bytes(), &TEXT[..32]);
    Ok(())
}

/// How many bytes are written, and how many wait, once this many have come.
fn written_of(alloc: Global, count: usize) -> Result<(usize, usize), Fail> {
    let mut out = MemSink::new(alloc, Vec::new(alloc), 1000);
    let mut waiting = Vec::new(alloc);
    waiting.resize(count, b'a')?;
    match write_full(&mut out, &mut waiting) {
        Ok(()) => Ok((out.bytes().len(), waiting.len())),
        Err(_) => Ok((0, 0)),
    }
}

#[test]
fn output_goes_out_in_pieces(rt: HostRuntime) -> Result<(), Fail> {
    assert_eq!(rt; written_of(rt.alloc(), 40)?, (0, 40));
    assert_eq!(rt; written_of(rt.alloc(), 4096)?, (0, 4096));
    assert_eq!(rt; written_of(rt.alloc(), 4097)?, (4097, 0));
    Ok(())
}
