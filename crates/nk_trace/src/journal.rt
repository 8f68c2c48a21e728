// The lines of the journals, one for each entry.

ghost use Rattle.std.specs.Prelude.{◌≡◌, ◌++◌, ◌∷◌, [], codes, decimal, OnOk};
ghost use Rattle.std.specs.List.{flat_map};
ghost use Rattle.nk_trace.specs.Words.{words, line, status_text};
ghost use Rattle.nk_trace.specs.Journals.{child_line, forwarded_line, parent_line, refusal_text, target_text, worker_text};
ghost use Rattle.nk_trace.specs.Report.{log_lines};

use crate::printer::Printer;
use nk_base::{BackMsg, MainMsg, Memory, RetargetError, Status, Target};
use nk_plan::{ChannelEnd, ChildEntry, ChildJournal, ParentEntry, ParentJournal};

impl Printer {
    /// Prints the journals of a channel: the parent's, how many messages were moved on, and the child's.
    pub(crate) fn journals(&mut self, end: &ChannelEnd) -> Result<(), Memory>
        ensures { OnOk result (self.new ≡ self.old ++ log_lines end.now) }
    {
        self.parent_journal(&end.parent)?;
        self.forwarded(end.forwarded)?;
        self.child_journal(&end.child)
    }

    /// Prints a parent's journal.
    fn parent_journal(&mut self, journal: &ParentJournal) -> Result<(), Memory>
        ensures { OnOk result (self.new ≡ self.old ++ flat_map parent_line journal.now) }
    {
        for entry in journal.as_slice() {
            self.parent_entry(entry)?;
        }
        Ok(())
    }

    /// Prints a child's journal.
    fn child_journal(&mut self, journal: &ChildJournal) -> Result<(), Memory>
        ensures { OnOk result (self.new ≡ self.old ++ flat_map child_line journal.now) }
    {
        for entry in journal.as_slice() {
            self.child_entry(entry)?;
        }
        Ok(())
    }

    /// Prints how many messages the parent's background half has moved on.
    pub fn forwarded(&mut self, count: usize) -> Result<(), Memory>
        ensures { OnOk result (self.new ≡ self.old ++ forwarded_line count) }
    {
        self.word("forwarded ")?;
        self.decimal(count as u64)?;
        self.line_feed()
    }

    /// Prints an entry of a parent's journal.
    pub fn parent_entry(&mut self, entry: &ParentEntry) -> Result<(), Memory>
        ensures { OnOk result (self.new ≡ self.old ++ parent_line entry.now) }
    {
        match entry {
            ParentEntry::Took(message) => {
                self.word("p ")?;
                self.up_message(message)?;
                self.line_feed()
            }
            ParentEntry::SentMain(message) => {
                self.word("p send ")?;
                self.main_message(message)?;
                self.line_feed()
            }
            ParentEntry::SentBack(message) => {
                self.word("p send ")?;
                self.back_message(message)?;
                self.line_feed()
            }
        }
    }

    /// Prints an entry of a child's journal.
    pub fn child_entry(&mut self, entry: &ChildEntry) -> Result<(), Memory>
        ensures { OnOk result (self.new ≡ self.old ++ child_line entry.now) }
    {
        match entry {
            ChildEntry::Open => self.word("c open\n"),
            ChildEntry::Suspend => self.word("c suspend\n"),
            ChildEntry::Resume => self.word("c resume\n"),
            ChildEntry::Cancel(status) => self.status_line("c cancel", *status),
            ChildEntry::Break(status) => self.status_line("c break", *status),
            ChildEntry::Retarget(worker) => self.retargeted(*worker),
            ChildEntry::NoRetarget(error) => self.refused(*error),
            ChildEntry::NoEffect => self.word("c none\n"),
            ChildEntry::Verdict { hop, status } => self.verdict(*hop, *status),
            ChildEntry::TookMain(message) => self.took_main(message),
            ChildEntry::TookBack(message) => self.took_back(message),
            ChildEntry::Release(count) => self.released(*count),
            ChildEntry::RunStart {
                target,
                code,
                status,
            } => self.run_start(*target, *code, *status),
            ChildEntry::RunBytes {
                target,
                offset,
                length,
            } => self.run_bytes(*target, *offset, *length),
            ChildEntry::RunDrop {
                target,
                offset,
                status,
            } => self.run_drop(*target, *offset, *status),
            ChildEntry::RunStop { target, status } => self.run_status("stop", *target, *status),
            ChildEntry::RunRedirect1 { target, hop } => self.run_hop("redirect1", *target, *hop),
            ChildEntry::RunRedirect3 { target, hop } => self.run_hop("redirect3", *target, *hop),
            ChildEntry::RunCancel { target, status } => self.run_status("cancel", *target, *status),
            ChildEntry::HandOver { from, to } => self.hand_over(*from, *to),
            ChildEntry::Ended(target) => self.target_line("c ended", *target),
            ChildEntry::Complete(target) => self.target_line("c complete", *target),
            ChildEntry::Finish(target) => self.target_line("c finish", *target),
            ChildEntry::Prepend(status) => self.status_line("c prepend", *status),
        }
    }

    /// Prints the line of a `Retarget`.
    fn retargeted(&mut self, worker: u8) -> Result<(), Memory>
        ensures { OnOk result (self.new ≡ self.old ++ child_line (ChildEntry.Retarget worker)) }
    {
        self.word("c retarget ")?;
        self.worker(worker)?;
        self.line_feed()
    }

    /// Prints the line of a `NoRetarget`.
    fn refused(&mut self, error: RetargetError) -> Result<(), Memory>
        ensures { OnOk result (self.new ≡ self.old ++ child_line (ChildEntry.NoRetarget error)) }
    {
        self.word("c refused ")?;
        self.refusal(error)?;
        self.line_feed()
    }

    /// Prints the line of a `Verdict`.
    fn verdict(&mut self, hop: u32, status: Status) -> Result<(), Memory>
        ensures { OnOk result (self.new ≡ self.old ++ child_line (ChildEntry.Verdict hop status)) }
    {
        self.word("c verdict ")?;
        self.hop_and_status(hop, status)?;
        self.line_feed()
    }

    /// Prints the line of a `TookMain`.
    fn took_main(&mut self, message: &MainMsg) -> Result<(), Memory>
        ensures { OnOk result (self.new ≡ self.old ++ child_line (ChildEntry.TookMain message.now)) }
    {
        self.word("c main ")?;
        self.main_message(message)?;
        self.line_feed()
    }

    /// Prints the line of a `TookBack`.
    fn took_back(&mut self, message: &BackMsg) -> Result<(), Memory>
        ensures { OnOk result (self.new ≡ self.old ++ child_line (ChildEntry.TookBack message.now)) }
    {
        self.word("c back ")?;
        self.back_message(message)?;
        self.line_feed()
    }

    /// Prints the line of a `Release`.
    fn released(&mut self, count: usize) -> Result<(), Memory>
        ensures { OnOk result (self.new ≡ self.old ++ child_line (ChildEntry.Release count)) }
    {
        self.word("c release ")?;
        self.decimal(count as u64)?;
        self.line_feed()
    }

    /// Prints the line of a `RunStart`.
    fn run_start(&mut self, target: Target, code: u16, status: Status) -> Result<(), Memory>
        ensures { OnOk result (self.new ≡ self.old ++ child_line (ChildEntry.RunStart target code status)) }
    {
        self.run("start", target)?;
        self.code(code)?;
        self.word(" ")?;
        self.status(status)?;
        self.line_feed()
    }

    /// Prints the line of a `RunBytes`.
    fn run_bytes(&mut self, target: Target, offset: u64, length: u32) -> Result<(), Memory>
        ensures { OnOk result (self.new ≡ self.old ++ child_line (ChildEntry.RunBytes target offset length)) }
    {
        self.run("bytes", target)?;
        self.decimal(offset)?;
        self.word(" ")?;
        self.decimal(u64::from(length))?;
        self.line_feed()
    }

    /// Prints the line of a `RunDrop`.
    fn run_drop(&mut self, target: Target, offset: u64, status: Status) -> Result<(), Memory>
        ensures { OnOk result (self.new ≡ self.old ++ child_line (ChildEntry.RunDrop target offset status)) }
    {
        self.run("drop", target)?;
        self.decimal(offset)?;
        self.word(" ")?;
        self.status(status)?;
        self.line_feed()
    }

    /// Prints the line of an event that ran with a status.
    fn run_status(&mut self, event: &str, target: Target, status: Status) -> Result<(), Memory>
        ensures { OnOk result (self.new ≡ self.old ++ line (codes "c run" ∷ target_text target ∷ event.now ∷ status_text status ∷ [])) }
    {
        self.run(event, target)?;
        self.status(status)?;
        self.line_feed()
    }

    /// Prints the line of an event that ran for a hop.
    fn run_hop(&mut self, event: &str, target: Target, hop: u32) -> Result<(), Memory>
        ensures { OnOk result (self.new ≡ self.old ++ line (codes "c run" ∷ target_text target ∷ event.now ∷ decimal hop ∷ [])) }
    {
        self.run(event, target)?;
        self.decimal(u64::from(hop))?;
        self.line_feed()
    }

    /// Prints what the lines of events that ran begin with.
    fn run(&mut self, event: &str, target: Target) -> Result<(), Memory>
        ensures { OnOk result (self.new ≡ self.old ++ words (codes "c run" ∷ target_text target ∷ event.now ∷ [] ∷ [])) }
    {
        self.word("c run ")?;
        self.target(target)?;
        self.word(" ")?;
        self.word(event)?;
        self.word(" ")
    }

    /// Prints the line of a `HandOver`.
    fn hand_over(&mut self, from: Target, to: Target) -> Result<(), Memory>
        ensures { OnOk result (self.new ≡ self.old ++ child_line (ChildEntry.HandOver from to)) }
    {
        self.word("c over ")?;
        self.target(from)?;
        self.word(" ")?;
        self.target(to)?;
        self.line_feed()
    }

    /// Prints a line of a label and a target.
    fn target_line(&mut self, label: &str, target: Target) -> Result<(), Memory>
        ensures { OnOk result (self.new ≡ self.old ++ line (label.now ∷ target_text target ∷ [])) }
    {
        self.word(label)?;
        self.word(" ")?;
        self.target(target)?;
        self.line_feed()
    }

    /// Prints a target.
    fn target(&mut self, target: Target) -> Result<(), Memory>
        ensures { OnOk result (self.new ≡ self.old ++ target_text target) }
    {
        match target {
            Target::Main => self.word("main"),
            Target::Worker(worker) => self.worker(worker),
            Target::Back => self.word("back"),
        }
    }

    /// Prints a worker.
    fn worker(&mut self, worker: u8) -> Result<(), Memory>
        ensures { OnOk result (self.new ≡ self.old ++ worker_text worker) }
    {
        self.word("w")?;
        self.decimal(u64::from(worker))
    }

    /// Prints why a channel was not retargeted.
    fn refusal(&mut self, error: RetargetError) -> Result<(), Memory>
        ensures { OnOk result (self.new ≡ self.old ++ refusal_text error) }
    {
        match error {
            RetargetError::NotOpened => self.word("notopened"),
            RetargetError::Stopped => self.word("stopped"),
            RetargetError::Failed(status) => {
                self.word("failed ")?;
                self.status(status)
            }
            RetargetError::NotRetargetable => self.word("notretargetable"),
            RetargetError::AlreadyRetargeted(worker) => {
                self.word("already ")?;
                self.worker(worker)
            }
        }
    }
}
