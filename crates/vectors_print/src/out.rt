// Standard output, for the programs of test vectors.
use std::fmt::{self, Display, Write};

// What is printed waits in a row of bytes until it is flushed, or the row is full. A write that fails is passed over: the program goes on. By the kit's
// `io`, since what std writes can fail, and rests on more of C.
#[derive(Drop)]
pub struct Out {
    row: [u8; 4096],
    end: usize,
}

impl Out {
    pub fn new() -> Out {
        Out {
            row: [0; 4096],
            end: 0,
        }
    }

    // Bytes that need not be text.
    pub fn bytes(&mut self, bytes: &[u8]) {
        for byte in bytes {
            if self.end == self.row.len() {
                self.flush();
            }
            if let Some(place) = self.row.get_mut(self.end) {
                *place = *byte;
                self.end = self.end.saturating_add(1);
            }
        }
    }

    // What a value's text is.
    pub fn print<D: Display + Drop>(&mut self, value: D) {
        let _ = self.write(value);
    }

    // What a value's text is, and a line end.
    pub fn println<D: Display + Drop>(&mut self, value: D) {
        let _ = self.writeln(value);
    }

    // Writes what waits.
    pub fn flush(&mut self) {
        io::write_all(1, self.row.get(..self.end).unwrap_or(&[]));
        self.end = 0;
    }
}

impl Write for Out {
    fn write_str(&mut self, s: &str) -> fmt::Result {
        self.bytes(s.as_bytes());
        Ok(())
    }
}
