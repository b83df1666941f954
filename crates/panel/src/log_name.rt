// Which of the panel's logs a reply is about; where both logs of tenths take part, the cold one.
#[derive(Clone, Copy, Debug, PartialEq, Eq)]
pub enum LogName {
    ColdLog,
    HotLog,
    ProbeLog,
}
