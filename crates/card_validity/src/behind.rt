//! What stands behind the end mark of a card whose session is closed.
ghost use Rattle.std.specs.Prelude.{◌≡◌, ◌≤◌, ◌+◌, ◌/◌, ◌%◌, None, false, true, nat_le, if◌then◌else◌};
ghost use Rattle.activity_codec.specs.Words.{word_absent};
ghost use Rattle.activity_codec.specs.declared.day.TheConstants.{LAST_MINUTE};
ghost use Rattle.card_image.specs.card_model.Changes.{date_of};
ghost use Rattle.card_validity.specs.Words.{seen_by, with_check, answer_by};

use activity_codec::{DAY_MINUTES, DAY_SECONDS, MINUTE_SECONDS, WORD_ABSENT, WORD_MINUTES};

/// What is kept of the first word behind the mark.
#[derive(Clone, Copy)]
pub struct First {
    /// it tells that no card was there
    pub absent: bool,
    /// it does not stand at the minute after the mark
    pub apart: bool,
    pub place: u32,
}

/// What was seen of the words so far.
#[derive(Clone, Copy)]
pub struct Behind {
    /// the latest word up to the mark is an entry's, and lies in the mark's day
    pub unclosed: bool,
    pub first: Option<First>,
    /// where the first of the words behind the first one stands that is an entry's
    pub bad: Option<u32>,
}

/// The first second of the day of a minute.
pub fn date_of(minute: u32) -> u32
    requires { minute ≤ LAST_MINUTE }
    ensures { result ≡ date_of minute }
{
    minute / DAY_MINUTES * DAY_SECONDS
}

/// Whether a day of this date is later than the day of a minute.
pub fn is_later_day(date: u32, minute: u32) -> bool
    requires { minute ≤ LAST_MINUTE }
    ensures { result ≡ (if nat_le date (date_of minute) then false else true) }
{
    date > date_of(minute)
}

/// Whether a word tells that no card was there (Appendix 1, ActivityChangeInfo).
pub fn is_absent(word: u16) -> bool
    ensures { result ≡ word_absent word }
{
    word / WORD_ABSENT % 2 == 1
}

/// The minute since 1970-01-01 of a word of a day.
pub fn minute_at(date: u32, word: u16) -> u32
    ensures { result ≡ date / 60 + word % 2048 }
{
    date / MINUTE_SECONDS + (word % WORD_MINUTES) as u32
}

impl Behind {
    /// No word was seen.
    pub fn none() -> Behind
        ensures { result ≡ record { unclosed = false; first = None; bad = None } }
    {
        Behind {
            unclosed: false,
            first: None,
            bad: None,
        }
    }

    /// What was seen with one word more, which stands at this place.
    pub fn see(self, mark: u32, date: u32, word: u16, place: u32) -> Behind
        requires mark { mark ≤ LAST_MINUTE }
        ensures { result ≡ seen_by mark self (record { date = date; word = word; place = place }) }
    {
        let minute = minute_at(date, word);
        let absent = is_absent(word);
        if minute <= mark {
            let unclosed = date == date_of(mark) && !absent;
            return Behind { unclosed, ..self };
        }
        match self.first {
            None => {
                let apart = minute != mark + 1;
                Behind {
                    first: Some(First {
                        absent,
                        apart,
                        place,
                    }),
                    ..self
                }
            }
            Some(_) => Behind {
                bad: self.others(absent, place),
                ..self
            },
        }
    }

    /// A word behind the first one.
    fn others(&self, absent: bool, place: u32) -> Option<u32>
        ensures { result ≡ with_check self.now.bad absent place }
    {
        match self.bad {
            None if !absent => Some(place),
            bad => bad,
        }
    }

    /// The place of the first word behind the mark that is bad: one of an entry, and the first one also where it leaves
    /// open what was open at the mark.
    pub fn answer(&self) -> Option<u32>
        ensures { result ≡ answer_by self.now.unclosed self.now.first self.now.bad }
    {
        match self.first {
            None => None,
            Some(first) if first.absent && !(self.unclosed && first.apart) => self.bad,
            Some(first) => Some(first.place),
        }
    }
}
