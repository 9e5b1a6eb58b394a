//! When something happened, as a log says it.

use std::alloc::{AllocError, Global};
use std::time::{Clock, Instant, SystemTime, UNIX_EPOCH};
use words::{LogForm, TimeForm};

/// The microseconds of a second.
const SECOND: u64 = 1_000_000;

/// The seconds of a day.
const DAY: u64 = 86_400;

/// When a server began, and how its log says the time.
#[derive(Clone, Copy, Drop)]
pub struct Times {
    pub form: LogForm,
    time: Option<TimeForm>,
    /// If no clock can be read, nothing has a time.
    start: Option<Instant>,
    /// When it began by the system's clock, in microseconds since 1970.
    began: Option<u64>,
}

/// How many microseconds the server has gone on, where a clock could be read.
pub type Moment = Option<u64>;

impl Times {
    /// The server begins. Objects have a time in any case.
    pub fn begin(rt: &impl Clock, form: LogForm, time: Option<TimeForm>) -> Times {
        let time = match (form, time) {
            (LogForm::Json, None) => Some(TimeForm::Seconds),
            (_, time) => time,
        };
        Times {
            form,
            time,
            start: Instant::now(rt).ok(),
            began: since_1970(rt),
        }
    }

    /// Now.
    pub fn now(&self, rt: &impl Clock) -> Moment {
        let elapsed = self.start?.elapsed(rt).ok()?;
        u64::try_from(elapsed.as_micros()).ok()
    }

    /// The time as a JSON value, or as the front of a line of text, if that has one.
    pub fn text(&self, alloc: Global, moment: Moment) -> Result<Option<String>, AllocError> {
        let Some(form) = self.time else {
            return Ok(None);
        };
        let shown = match form {
            TimeForm::Seconds => seconds(alloc, moment)?,
            TimeForm::Utc => self.utc(alloc, moment)?,
        };
        Ok(Some(match (shown, form, self.form) {
            (None, _, LogForm::Json) => String::from_str(alloc, "null")?,
            (None, _, LogForm::Text) => String::from_str(alloc, "-")?,
            (Some(time), TimeForm::Utc, LogForm::Json) => format!(in alloc; "\"{time}\"")?,
            (Some(time), _, _) => time,
        }))
    }

    /// By the clock, with six digits after the second (RFC 3339).
    fn utc(&self, alloc: Global, moment: Moment) -> Result<Option<String>, AllocError> {
        let (Some(began), Some(moment)) = (self.began, moment) else {
            return Ok(None);
        };
        let microseconds = began.saturating_add(moment);
        let (whole, rest) = (microseconds / SECOND, microseconds % SECOND);
        let (days, second) = (whole / DAY, whole % DAY);
        let (hour, minute, second) = (second / 3_600, second / 60 % 60, second % 60);
        let Date { year, month, day } = Date::of_day(days);
        let date = format!(in alloc; "{year:04}-{month:02}-{day:02}")?;
        Ok(Some(format!(in alloc; "{date}T{hour:02}:{minute:02}:{second:02}.{rest:06}Z")?))
    }
}

/// A day of the Gregorian calendar.
struct Date {
    year: u64,
    month: u64,
    day: u64,
}

impl Date {
    /// The day that comes `days` days after 1970-01-01. Years are counted from March on, so that a
    /// leap day is the last of its year, in cycles of 400 years, which have 146,097 days.
    fn of_day(days: u64) -> Date {
        let days = days.saturating_add(719_468);
        let (cycle, day) = (days / 146_097, days % 146_097);
        let leaps = day / 1_460 + day / 146_096;
        let years = (day - leaps + day / 36_524) / 365;
        let before = years * 365 + years / 4 - years / 100;
        let day = day.saturating_sub(before);
        let months = (5 * day + 2) / 153;
        let month = if months < 10 { months + 3 } else { months - 9 };
        let year = cycle.saturating_mul(400).saturating_add(years);
        Date {
            year: if month <= 2 {
                year.saturating_add(1)
            } else {
                year
            },
            month,
            day: day.saturating_sub((153 * months + 2) / 5) + 1,
        }
    }
}

/// The seconds, with six digits after the point.
fn seconds(alloc: Global, moment: Moment) -> Result<Option<String>, AllocError> {
    let Some(moment) = moment else {
        return Ok(None);
    };
    let (whole, rest) = (moment / SECOND, moment % SECOND);
    Ok(Some(format!(in alloc; "{whole}.{rest:06}")?))
}

fn since_1970(rt: &impl Clock) -> Option<u64> {
    let since = SystemTime::now(rt).ok()?.duration_since(UNIX_EPOCH).ok()?;
    u64::try_from(since.as_micros()).ok()
}
