// A log's memory, out of the struct that C hands over.

// Takes the struct apart and binds a log's memory of its slices to the same name. No `From`, since no contract of a function says
// what is left behind three references that it takes in one struct.
macro_rules! lend {
    ($memory:ident: $lent:ident) => {
        let $lent {
            readings,
            shapes,
            entries,
        } = $memory;
        let mut $memory = firing_log::Memory {
            readings,
            shapes,
            entries,
        };
    };
}

pub(crate) use lend;
