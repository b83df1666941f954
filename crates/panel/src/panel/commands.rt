// What the panel does at each command.
ghost use Rattle.std.specs.Prelude.{◌≡◌, Some};
ghost use Rattle.reading.specs.Probes.{probe_of};
ghost use Rattle.panel.specs.Logs.{tenths_appended, tenths_cut};
ghost use Rattle.panel.specs.Firing.{AnswersRightly, ShowsRightly};
ghost use Rattle.panel.specs.Replies.{answered, obeyed, counted, probe_answered};
ghost use Rattle.panel.specs.Of.{logs_of};

use super::Panel;
use crate::answer::Answer;
use crate::log_name::LogName;
use crate::refusal::Refusal;
use console::{Command, Done, Malformed};
use firing_log::LogFault;
use reading::{Probe, ProbeFault, Reversed, Tenths};
use shape::BallotWalk;

impl Panel<'_> {
    // Does what a line asks for. The answer is right in terms of plain lists, wherever the logs keep a firing: the strip is that of the readings.
    pub fn answer(&mut self, asked: Result<Command, Malformed>) -> Result<Answer, Refusal>
        ensures reply { (answered (logs_of self.old) asked).0 ≡ Some result }
        ensures after { logs_of self.new ≡ (answered (logs_of self.old) asked).1 }
        ensures right { AnswersRightly (logs_of self.old) asked result (logs_of self.new) }
        ensures shows { ShowsRightly (logs_of self.old) asked result }
    {
        self.obey(asked?)
    }

    fn obey(&mut self, command: Command) -> Result<Answer, Refusal>
        ensures reply { (obeyed (logs_of self.old) command).0 ≡ Some result }
        ensures after { logs_of self.new ≡ (obeyed (logs_of self.old) command).1 }
    {
        match command {
            Command::Append { tenths } => changed(LogName::ColdLog, self.append(Tenths(tenths))),
            Command::AppendProbe { margin, number } => self.append_probe(margin, number),
            Command::Cut { length } => changed(LogName::ColdLog, self.cut(length)),
            Command::Coldest { from, to } => Ok(Answer::Cold(
                self.cold.ask(&self.table, from, to)?,
            )),
            Command::Hottest { from, to } => {
                let asked = self.hot.ask(&BallotWalk, from, to);
                let found = asked.map_err(|fault| Refusal::Log(LogName::HotLog, fault))?;
                Ok(Answer::Hot(found))
            }
            Command::Weakest { from, to } => {
                let asked = self.probes.ask(&BallotWalk, from, to);
                let found = asked.map_err(|fault| Refusal::Log(LogName::ProbeLog, fault))?;
                Ok(Answer::Probes(found))
            }
            Command::Strip => Ok(Answer::Written(self.cold.write_strip()?)),
        }
    }

    fn append(&mut self, reading: Tenths) -> Result<usize, LogFault>
        ensures result { result ≡ (tenths_appended (logs_of self.old) reading).0 }
        ensures after { logs_of self.new ≡ (tenths_appended (logs_of self.old) reading).1 }
    {
        self.hot.append(&BallotWalk, Reversed(reading))?;
        self.cold.append(&self.table, reading)
    }

    fn cut(&mut self, length: u32) -> Result<usize, LogFault>
        ensures result { result ≡ (tenths_cut (logs_of self.old) length).0 }
        ensures after { logs_of self.new ≡ (tenths_cut (logs_of self.old) length).1 }
    {
        self.hot.cut(length)?;
        self.cold.cut(length)
    }

    fn append_probe(&mut self, margin: i32, number: u32) -> Result<Answer, Refusal>
        ensures reply { (probe_answered (logs_of self.old) (probe_of margin number)).0 ≡ Some result }
        ensures after { logs_of self.new ≡ (probe_answered (logs_of self.old) (probe_of margin number)).1 }
    {
        let reading = probe(margin, number)?;
        changed(LogName::ProbeLog, self.probes.append(&BallotWalk, reading))
    }
}

// The reply to a call that gives the new count, by the log that it is about.
fn changed(log: LogName, count: Result<usize, LogFault>) -> Result<Answer, Refusal>
    ensures { result ≡ counted log count }
{
    let count = count.map_err(|fault| Refusal::Log(log, fault))?;
    Ok(Answer::Changed(log, Done(count)))
}

// A number that is too large for a byte is no probe's, and neither is 255.
fn probe(margin: i32, number: u32) -> Result<Probe, ProbeFault>
    ensures { result ≡ probe_of margin number }
{
    Probe::new(margin, u8::try_from(number).unwrap_or(u8::MAX))
}
