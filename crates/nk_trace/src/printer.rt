// The writer of the report: one buffer of bytes, and how numbers, statuses and bytes stand in it.

ghost use Rattle.std.specs.Prelude.{◌≡◌, ◌++◌, ◌∷◌, [], decimal, OnOk, OnErr};
ghost use Rattle.nk_trace.specs.Words.{line, code_text, hex_byte, hex_text, status_text};

use hex::encode_to_slice;
use itoa::Buffer;
use nk_base::{Memory, Status};
use std::alloc::Global;
use std::marker::Model;

/// A text as far as it is printed. Want of memory inside a line may leave the line cut at any byte; the calls that add one
/// word, number or status, and the line feed, leave the text as before then. This project's own.
#[derive(Drop)]
pub struct Printer {
    bytes: Vec<u8>,
}

impl Model for Printer {
    ghost use Rattle.std.specs.Prelude.{List, ℕ};

    ghost Value = { List ℕ };

    ghost view = { λ s. s.bytes.items };
}

impl Printer {
    /// A text of no bytes.
    pub fn new(alloc: Global) -> Printer
        ensures { result ≡ [] }
    {
        Printer {
            bytes: Vec::new(alloc),
        }
    }

    /// The text's bytes, lent.
    pub fn as_slice(&self) -> &[u8]
        ensures { result.now ≡ self.now }
    {
        self.bytes.as_slice()
    }

    /// Makes the text empty; its room stays.
    pub fn clear(&mut self)
        ensures { self.new ≡ [] }
    {
        self.bytes.clear();
    }

    /// The text's bytes.
    pub fn into_bytes(self) -> Vec<u8>
        ensures { result.items ≡ self }
    {
        self.bytes
    }

    /// Prints these bytes as they are.
    pub(crate) fn bytes(&mut self, bytes: &[u8]) -> Result<(), Memory>
        ensures ok { OnOk result (self.new ≡ self.old ++ bytes.now) }
        ensures err { OnErr result (self.new ≡ self.old) }
    {
        match self.bytes.extend_from_slice(bytes) {
            Ok(()) => Ok(()),
            Err(_) => Err(Memory),
        }
    }

    /// Prints a text as it is.
    pub fn word(&mut self, word: &str) -> Result<(), Memory>
        ensures ok { OnOk result (self.new ≡ self.old ++ word.now) }
        ensures err { OnErr result (self.new ≡ self.old) }
    {
        self.bytes(word.as_bytes())
    }

    /// Prints a number in decimal.
    pub fn decimal(&mut self, number: u64) -> Result<(), Memory>
        ensures ok { OnOk result (self.new ≡ self.old ++ decimal number) }
        ensures err { OnErr result (self.new ≡ self.old) }
    {
        let mut buffer = Buffer::new();
        self.word(buffer.format(number))
    }

    /// Prints a code, with leading zeros up to three digits.
    #[tactic(auto, unfolding(crate::specs::Words::code_text))]
    pub(crate) fn code(&mut self, code: u16) -> Result<(), Memory>
        ensures { OnOk result (self.new ≡ self.old ++ code_text code) }
    {
        let mut buffer = Buffer::new();
        let digits = buffer.format(code);
        let zeros = 3usize.saturating_sub(digits.len());
        for _ in 0..zeros {
            self.word("0")?;
        }
        self.word(digits)
    }

    /// Prints bytes, as two hexadecimal digits each.
    pub(crate) fn hex(&mut self, bytes: &[u8]) -> Result<(), Memory>
        ensures ok { OnOk result (self.new ≡ self.old ++ hex_text bytes.now) }
        ensures err { OnErr result (self.new ≡ self.old) }
    {
        let start = self.bytes.len();
        let Some(end) = bytes
            .len()
            .checked_mul(2)
            .and_then(|digits| digits.checked_add(start))
        else {
            return Err(Memory);
        };
        match self.bytes.resize(end, 0) {
            Ok(()) => {}
            Err(_) => return Err(Memory),
        }
        match encode_to_slice(bytes, &mut self.bytes[start..]) {
            Ok(()) => Ok(()),
            Err(_) => {
                self.bytes.truncate(start);
                Err(Memory)
            }
        }
    }

    /// Prints the kind of a message, as two hexadecimal digits.
    pub fn kind(&mut self, kind: u8) -> Result<(), Memory>
        ensures ok { OnOk result (self.new ≡ self.old ++ hex_byte kind) }
        ensures err { OnErr result (self.new ≡ self.old) }
    {
        self.hex(&[kind])
    }

    /// Prints a status, as eight hexadecimal digits.
    #[tactic(auto, unfolding(crate::specs::Words::status_text))]
    pub fn status(&mut self, status: Status) -> Result<(), Memory>
        ensures ok { OnOk result (self.new ≡ self.old ++ status_text status) }
        ensures err { OnErr result (self.new ≡ self.old) }
    {
        self.hex(&status.0.to_be_bytes())
    }

    /// Prints a line of a label and a status.
    pub(crate) fn status_line(&mut self, label: &str, status: Status) -> Result<(), Memory>
        ensures { OnOk result (self.new ≡ self.old ++ line (label.now ∷ status_text status ∷ [])) }
    {
        self.word(label)?;
        self.word(" ")?;
        self.status(status)?;
        self.line_feed()
    }

    /// Ends a line.
    pub fn line_feed(&mut self) -> Result<(), Memory>
        ensures ok { OnOk result (self.new ≡ self.old ++ 10 ∷ []) }
        ensures err { OnErr result (self.new ≡ self.old) }
    {
        self.word("\n")
    }
}
