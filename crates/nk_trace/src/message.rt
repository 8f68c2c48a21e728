// The texts of the messages of the three lanes.

ghost use Rattle.std.specs.Prelude.{◌≡◌, ◌++◌, ◌∷◌, [], length, decimal, OnOk};
ghost use Rattle.nk_trace.specs.Words.{words, code_text, status_text};
ghost use Rattle.nk_trace.specs.Messages.{back_text, main_text, trailer_count, up_text};

use crate::printer::Printer;
use nk_base::{BackMsg, Fields, Head, MainMsg, Memory, Status, UpMsg};

impl Printer {
    /// Prints a message of the main lane.
    pub fn main_message(&mut self, message: &MainMsg) -> Result<(), Memory>
        ensures { OnOk result (self.new ≡ self.old ++ main_text message.now) }
    {
        match message {
            MainMsg::Start { hop, status, head } => {
                self.word("start ")?;
                self.hop_and_status(*hop, *status)?;
                self.word(" ")?;
                self.head(head)
            }
            MainMsg::FailedOpen { hop, status } => {
                self.word("failed ")?;
                self.hop_and_status(*hop, *status)
            }
            MainMsg::Redirect1 { hop, code } => {
                self.word("redirect1 ")?;
                self.decimal(u64::from(*hop))?;
                self.word(" ")?;
                self.code(*code)
            }
            MainMsg::Redirect3 { hop } => {
                self.word("redirect3 ")?;
                self.decimal(u64::from(*hop))
            }
        }
    }

    /// Prints a message of the background lane.
    pub fn back_message(&mut self, message: &BackMsg) -> Result<(), Memory>
        ensures { OnOk result (self.new ≡ self.old ++ back_text message.now) }
    {
        match message {
            BackMsg::StartSent { hop } => {
                self.word("sent ")?;
                self.decimal(u64::from(*hop))
            }
            BackMsg::Start { hop, status, head } => {
                self.word("bstart ")?;
                self.hop_and_status(*hop, *status)?;
                self.word(" ")?;
                self.head(head)
            }
            BackMsg::Bytes {
                hop,
                status,
                offset,
                piece,
            } => {
                self.word("bytes ")?;
                self.hop_and_status(*hop, *status)?;
                self.word(" ")?;
                self.decimal(*offset)?;
                self.word(" ")?;
                self.decimal(u64::from(piece.size()))
            }
            BackMsg::Stop {
                hop,
                status,
                trailers,
            } => {
                self.word("stop ")?;
                self.hop_and_status(*hop, *status)?;
                self.trailer_count(trailers)
            }
        }
    }

    /// Prints a message of the up lane.
    pub fn up_message(&mut self, message: &UpMsg) -> Result<(), Memory>
        ensures { OnOk result (self.new ≡ self.old ++ up_text message.now) }
    {
        match message {
            UpMsg::Open => self.word("open"),
            UpMsg::Suspend => self.word("suspend"),
            UpMsg::Resume => self.word("resume"),
            UpMsg::Cancel { status } => {
                self.word("cancel ")?;
                self.status(*status)
            }
            UpMsg::Verify { hop, status } => {
                self.word("verify ")?;
                self.hop_and_status(*hop, *status)
            }
            UpMsg::BytesRead { count } => {
                self.word("read ")?;
                self.decimal(u64::from(*count))
            }
            UpMsg::Deleting => self.word("deleting"),
        }
    }

    /// Prints a hop and a status.
    pub(crate) fn hop_and_status(&mut self, hop: u32, status: Status) -> Result<(), Memory>
        ensures { OnOk result (self.new ≡ self.old ++ words (decimal hop ∷ status_text status ∷ [])) }
    {
        self.decimal(u64::from(hop))?;
        self.word(" ")?;
        self.status(status)
    }

    /// Prints a head's code and the number of its fields.
    fn head(&mut self, head: &Head) -> Result<(), Memory>
        ensures { OnOk result (self.new ≡ self.old ++ words (code_text head.now.code ∷ decimal (length head.now.fields) ∷ [])) }
    {
        self.code(head.code)?;
        self.word(" ")?;
        self.decimal(head.fields.len() as u64)
    }

    /// Prints a space and the number of trailers, where there are any.
    fn trailer_count(&mut self, trailers: &Fields) -> Result<(), Memory>
        ensures { OnOk result (self.new ≡ self.old ++ trailer_count trailers.now) }
    {
        if trailers.len() == 0 {
            return Ok(());
        }
        self.word(" ")?;
        self.decimal(trailers.len() as u64)
    }
}
