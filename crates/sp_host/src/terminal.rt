ghost use Rattle.std.specs.Prelude.{None};

use sp_io::{Failed, Sink};

/// Standard output.
#[derive(Drop)]
pub struct Terminal<'a, R> {
    rt: &'a R,
    faults: u64,
}

impl<'a, R> Terminal<'a, R> {
    /// The output of the runtime.
    pub fn new(rt: &'a R) -> Self {
        Terminal { rt, faults: 0 }
    }
}

impl<'a, R: Print + Drop> Sink for Terminal<'a, R> {
    ghost written = { λ _. None };

    ghost faults = { λ terminal. terminal.faults };

    fn write(&mut self, piece: &[u8]) -> Result<usize, Failed> {
        if piece.is_empty() {
            return Ok(0);
        }
        match self.rt.write_some(piece) {
            Ok(n) if n > 0 => Ok(n),
            _ => {
                self.faults = self.faults.saturating_add(1);
                Err(Failed)
            }
        }
    }
}
