ghost use Rattle.std.specs.Prelude.{◌≡◌, ◌≤◌, ◌<◌, None, length, IfOk, IfSome, IsErrOf};

use sp_io::{FetchFail, Library};
use std::alloc::Global;
use std::io::{ErrorKind, Read};
use std::{fs, rt};

/// How many bytes one read asks for at most.
const CHUNK: usize = 4096;

/// Files by their names, and standard input by the name `-`.
#[derive(Drop)]
pub struct Files<'a, R> {
    rt: &'a R,
    faults: u64,
}

impl<'a, R> Files<'a, R> {
    /// The files that the runtime reaches.
    pub fn new(rt: &'a R) -> Self {
        Files { rt, faults: 0 }
    }
}

/// Reads to the end, or until there are more bytes than the limit.
fn read_within<I: Read>(alloc: Global, reader: &mut I, limit: usize) -> Result<Vec<u8>, FetchFail>
    ensures bounded { IfOk result (λ bytes. length bytes.items ≤ limit) }
    ensures whole { IfOk result (λ bytes. IfSome (I.remaining reader.old) (λ known. bytes.items ≡ known)) }
    ensures too_long { IsErrOf result FetchFail.TooLong → IfSome (I.remaining reader.old) (λ known. limit < length known) }
    ensures found { ¬ IsErrOf result FetchFail.Missing }
{
    let mut bytes = Vec::new(alloc);
    let mut chunk = [0u8; CHUNK];
    for _ in 0..=limit {
        let wanted = (limit - bytes.len()).saturating_add(1).min(CHUNK);
        let Ok(n) = reader.read(&mut chunk[..wanted]) else {
            return Err(FetchFail::Failed);
        };
        if n == 0 {
            return Ok(bytes);
        }
        if n > limit - bytes.len() {
            return Err(FetchFail::TooLong);
        }
        bytes.extend_from_slice(&chunk[..n])?;
    }
    Err(FetchFail::TooLong)
}

/// The bytes of a file, or of standard input.
fn read_named<R: rt::Files + Input>(
    rt: &R,
    alloc: Global,
    name: &str,
    limit: usize,
) -> Result<Vec<u8>, FetchFail>
    ensures bounded { IfOk result (λ bytes. length bytes.items ≤ limit) }
    ensures found { ¬ IsErrOf result FetchFail.Missing }
{
    if name == "-" {
        return read_within(alloc, &mut rt.reader(), limit);
    }
    match fs::open(rt, name) {
        Ok(mut file) => read_within(alloc, &mut file, limit),
        Err(cause) if cause.kind() == ErrorKind::OutOfMemory => Err(FetchFail::NoMemory),
        Err(_) => Err(FetchFail::Failed),
    }
}

impl<'a, R: rt::Files + Input + Drop> Library for Files<'a, R> {
    ghost holds = { λ _ _. None };

    ghost asked = { λ _. None };

    ghost faults = { λ files. files.faults };

    fn fetch(&mut self, alloc: Global, name: &str, limit: usize) -> Result<Vec<u8>, FetchFail> {
        let answer = read_named(self.rt, alloc, name, limit);
        if let Err(FetchFail::Failed) = answer {
            self.faults = self.faults.saturating_add(1);
        }
        answer
    }
}
