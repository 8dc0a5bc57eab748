// Writers that fail in mid-line, instead of standard output.

use crate::verdicts::SETTINGS;
use report::{Open, check, write_report};
use round_tests::{CONFIG, ORDER, RECORDING};
use sink::{WriteFault, WriterSink};
use std::io;
use std::io::{ErrorKind, Write};
use std::test::Fail;

// Takes two bytes at a time, while it has room.
#[derive(Drop)]
pub struct Narrow<'a> {
    pub taken: &'a mut Vec<u8>,
    pub room: usize,
}

impl<'a> Write for Narrow<'a> {
    fn write(&mut self, buf: &[u8]) -> io::Result<usize> {
        let count = buf.len().min(self.room).min(2);
        if count == 0 && !buf.is_empty() {
            return Err(io::Error::from(ErrorKind::StorageFull));
        }
        self.taken.extend_from_slice(&buf[..count])?;
        self.room -= count;
        Ok(count)
    }

    fn flush(&mut self) -> io::Result<()> {
        Ok(())
    }
}

// Takes all bytes, and cannot pass them on.
#[derive(Drop)]
struct Stuck {}

impl Write for Stuck {
    fn write(&mut self, buf: &[u8]) -> io::Result<usize> {
        Ok(buf.len())
    }

    fn flush(&mut self) -> io::Result<()> {
        Err(io::Error::from(ErrorKind::StorageFull))
    }
}

#[test]
fn writers_fail(rt: HostRuntime) -> Result<(), Fail> {
    let alloc = rt.alloc();
    for (order, line) in [
        (ORDER, "YES records=14\n"),
        (b"0,x", "REFUSED cert place=0 fault=BadNumber\n"),
        (b"9,0", "REFUSED order place=0 core=9 fault=NoSuchCore\n"),
    ] {
        let readers = vec![in alloc; RECORDING.as_bytes()]?;
        let outcome = check(rt, alloc, CONFIG, readers, order, &[], &[], SETTINGS, &Open);
        for room in 0..line.len().saturating_add(1) {
            let mut taken = Vec::new(alloc);
            let mut sink = WriterSink::new(Narrow {
                taken: &mut taken,
                room,
            });
            let written = write_report(&mut sink, &outcome);
            drop(sink);
            assert_eq!(rt; written.is_ok(), room == line.len(), "{line}");
            assert_eq!(rt; taken.len(), room, "{line}");
            assert!(rt; line.as_bytes().starts_with(&taken), "{line}");
        }
    }
    Ok(())
}

#[test]
fn a_flush_reaches_the_writer(rt: HostRuntime) -> Result<(), Fail> {
    let alloc = rt.alloc();
    let mut taken = Vec::new(alloc);
    let mut narrow = WriterSink::new(Narrow {
        taken: &mut taken,
        room: 2,
    });
    assert_eq!(rt; narrow.flush(), Ok(()));
    let mut stuck = WriterSink::new(Stuck {});
    assert_eq!(rt; stuck.flush(), Err(WriteFault));
    Ok(())
}
