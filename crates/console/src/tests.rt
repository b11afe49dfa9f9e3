// Reading and printing over readers and writers in memory, byte by byte, and one failure in the midst of each.
use super::*;
use std::io;
use std::io::{ErrorKind, Read, Write};

// Gives a byte a call, and fails where `good` bytes are given.
#[derive(Drop)]
struct Slow<'a> {
    rest: &'a [u8],
    good: usize,
}

impl Read for Slow<'_> {
    fn read(&mut self, buf: &mut [u8]) -> io::Result<usize> {
        if self.good == 0 {
            return Err(io::Error::from(ErrorKind::Other));
        }
        self.good -= 1;
        let n = buf.len().min(1).min(self.rest.len());
        let (front, others) = self.rest.split_at(n);
        buf[..n].copy_from_slice(front);
        self.rest = others;
        Ok(n)
    }
}

// Takes a byte a call, and fails where it holds `good` bytes.
#[derive(Drop)]
struct Small {
    held: Vec<u8>,
    good: usize,
}

impl Write for Small {
    fn write(&mut self, buf: &[u8]) -> io::Result<usize> {
        if self.held.len() >= self.good {
            return Err(io::Error::from(ErrorKind::BrokenPipe));
        }
        let n = buf.len().min(1);
        self.held.extend_from_slice(&buf[..n])?;
        Ok(n)
    }

    fn flush(&mut self) -> io::Result<()> {
        Ok(())
    }
}

fn giving(rest: &[u8], good: usize) -> Slow<'_> {
    Slow { rest, good }
}

fn ended(input: Input) -> Option<usize> {
    match input {
        Input::Ended(n) => Some(n),
        _ => None,
    }
}

fn full(input: Input) -> Option<usize> {
    match input {
        Input::Full(n) => Some(n),
        _ => None,
    }
}

#[test]
fn fills_up_to_the_end_of_the_input_or_of_the_buffer(rt: HostRuntime) {
    let mut buf = *b"......";
    assert_eq!(rt; ended(fill(&mut giving(b"", 9), &mut buf, 0)), Some(0));
    assert_eq!(rt; ended(fill(&mut giving(b"abc", 9), &mut buf, 2)), Some(5));
    assert_eq!(rt; &buf, b"..abc.");
    let mut all = giving(b"uvwxyz", 9);
    assert_eq!(rt; full(fill(&mut all, &mut buf, 1)), Some(6));
    assert_eq!(rt; &buf, b".uvwxy");
    assert_eq!(rt; ended(fill(&mut all, &mut buf, 0)), Some(1));
    assert_eq!(rt; &buf, b"zuvwxy");
    assert_eq!(rt; full(fill(&mut all, &mut buf, 6)), Some(6));
}

#[test]
fn a_read_that_fails_is_no_end(rt: HostRuntime) {
    let mut buf = *b"....";
    let mut cut = giving(b"abc", 2);
    let failed = match fill(&mut cut, &mut buf, 1) {
        Input::Failed => true,
        _ => false,
    };
    assert!(rt; failed);
    assert_eq!(rt; &buf, b".ab.");
    assert!(rt; drain(&mut cut).is_err());
    let mut whole = giving(b"abc", 9);
    assert!(rt; drain(&mut whole).is_ok());
    assert_eq!(rt; whole.rest.len(), 0);
}

fn printed(rt: &HostRuntime, good: usize, word: u64, out: &[u8]) -> (Vec<u8>, bool) {
    let mut to = Small {
        held: Vec::new(rt.alloc()),
        good,
    };
    let is_ok = print_answer(&mut to, word, out).is_ok();
    (to.held, is_ok)
}

#[test]
fn prints_lines_or_refusal(rt: HostRuntime) {
    let (lines, all) = printed(&rt, 99, 3, b"a;\nb");
    assert!(rt; all);
    assert_eq!(rt; lines.as_slice(), b"a;\n".as_slice());
    let (refused, all) = printed(&rt, 99, 16 * 4294967296, b"a;\nb");
    assert!(rt; all);
    assert_eq!(rt; refused.as_slice(), b"refused=16\n".as_slice());
    let (part, all) = printed(&rt, 9, 16 * 4294967296, b"");
    assert!(rt; !all);
    assert_eq!(rt; part.as_slice(), b"refused=1".as_slice());
    let (none, all) = printed(&rt, 0, 1, b"a");
    assert!(rt; !all);
    assert_eq!(rt; none.len(), 0);
}
