// Candidates for the first coldest place.
ghost use Rattle.std.specs.Prelude.{◌<◌};

use reading::Reading;

// A place of a log together with the reading there.
#[derive(Drop)]
pub(crate) struct Candidate<K> {
    pub(crate) place: usize,
    pub(crate) reading: K,
    ghost few: { place < 32768 },
}

impl<K: Reading> Candidate<K> {
    ghost use Rattle.std.specs.Prelude.{◌≡◌, if◌then◌else◌};

    // This one stays unless the later one is colder.
    pub(crate) fn or_colder(self, later: Candidate<K>) -> Candidate<K>
        ensures { result ≡ (if K.Reading.colder later.reading self.reading then later else self) }
    {
        if later.reading.is_colder(self.reading) {
            return later;
        }
        self
    }
}
