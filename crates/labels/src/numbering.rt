// How labels are numbered at a rate: the count of a label's fields, and the fields of the label of a count.
ghost use Rattle.std.specs.Prelude.{◌≡◌, ◌≤◌, ◌<◌, true};
ghost use Rattle.answers.specs.Refusals.{most_count};
ghost use Rattle.rates.specs.Rates.{is_rate, rate_row, drop_frames};
ghost use Rattle.labels.specs.Label.{count_in, Short};
ghost use Rattle.labels.specs.Sections.{fields_at, dropped_before, sections_of};

// Frames a second of the labels, up to 60, and how many labels a minute drops, fewer than that.
#[derive(Clone, Copy)]
pub(crate) struct Numbering {
    timebase: u64,
    d: u64,
    ghost timebase_most: { timebase ≤ 60 },
    ghost fewer: { d < timebase },
}

impl Numbering {
    // That of a rate. Asks that there is one.
    pub(crate) fn of(rate: u64) -> Numbering
        requires { is_rate rate ≡ true }
        ensures timebase { result.timebase ≡ (rate_row rate).timebase }
        ensures dropped { result.d ≡ drop_frames rate }
    {
        Numbering {
            timebase: rates::row(rate).timebase,
            d: rates::drop_frames_per_minute(rate),
        }
    }

    // The count of a label's fields. Asks at most 9 digits of each.
    #[tactic(auto, unfolding(crate::specs::Label::label_count))]
    pub(crate) fn count(self, fields: [u64; 4]) -> u64
        requires { Short fields }
        ensures { result ≡ count_in self.timebase self.d fields }
    {
        let [hours, minutes, seconds, frames] = fields;
        let m = 60 * hours + minutes;
        (60 * m + seconds) * self.timebase + frames - self.d * (m - m / 10)
    }

    // The fields of the label of a count. Asks a count within its bounds.
    #[tactic(auto, unfolding(crate::specs::Sections::sections_of))]
    pub(crate) fn sections(self, n: u64) -> [u64; 4]
        requires { n ≤ most_count }
        ensures { result ≡ sections_of self.timebase self.d n }
    {
        let number = n + self.dropped_before(n);
        self.fields_at(number)
    }

    // How many labels are dropped before the one with the count n. It divides before it multiplies.
    #[tactic(auto, unfolding(crate::specs::Sections::dropped_before))]
    fn dropped_before(self, n: u64) -> u64
        requires { n ≤ most_count }
        ensures { result ≡ dropped_before self.timebase self.d n }
    {
        let tens = 600 * self.timebase - 9 * self.d;
        let rest = n % tens;
        self.d * (9 * (n / tens) + rest.saturating_sub(self.d) / (60 * self.timebase - self.d))
    }

    // The fields of the label with a number, dropped labels numbered too.
    #[tactic(auto, unfolding(crate::specs::Sections::fields_at))]
    fn fields_at(self, number: u64) -> [u64; 4]
        ensures { result ≡ fields_at self.timebase number }
    {
        let s = number / self.timebase;
        let m = s / 60;
        [m / 60, m % 60, s % 60, number % self.timebase]
    }
}
